//! What a core commits, whatever calls were made.
//!
//! The definitions stand in `specs/Lives.antt`. The function is a law, whose contract is the statement and whose body is empty.
ghost use Rattle.core_engine.specs.Lives.{LiveCoresAreSerial};

/// A core is opened on a session, which it refuses if its base violates a mapping. Any number of steps, deliveries, answers,
/// withdrawals and admissions change it. What it commits is what the serial machine makes of the committed updates alone, taken
/// whole, in number order, with the answers delivered to them.
pub fn live_cores_are_serial()
    ensures { LiveCoresAreSerial }
{}

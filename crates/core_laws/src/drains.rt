//! Drains of kept histories. While an update is ready or an answer can be delivered, turns are made. A turn is a step of the
//! lowest ready update, else a delivery to the lowest update that can have one.
//!
//! The definitions stand in `specs/`. Each function is a law, whose contract is the statement and whose body is empty.
ghost use Rattle.core_laws.specs.Laws.{TurnLaw, TurnsLaw, DrainedLaw};

/// A turn after a legal history leaves a legal history over the same number of updates, and less work; so turns come to an end.
pub fn turns_lower_the_work()
    ensures { TurnLaw }
{}

/// After any number of turns the history is legal and has the same number of updates. It has no live answer and no withdrawal
/// if it had none before.
pub fn turns_keep_the_history()
    ensures { TurnsLaw }
{}

/// A valid session whose base violates no mapping, with all its updates admitted, no live answer and no withdrawal, has the
/// result of the serial machine once it is drained.
pub fn drained_sessions_are_serial()
    ensures { DrainedLaw }
{}

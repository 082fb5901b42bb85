//! The theorem on histories, for sessions to which further updates are admitted while others go on.
//!
//! The definitions stand in `specs/Live.antt`. Each function is a law, whose contract is the statement and whose body is empty.
ghost use Rattle.core_laws.specs.Live.{LiveGrows, LiveIsAdmissible, LiveIsSerial};

/// The theorem on histories is about each session that passed its checks, whose base violates no mapping, and whose own
/// relations admitted each later update.
pub fn live_sessions_are_admissible()
    ensures { LiveIsAdmissible }
{}

/// Such a session stays one with one more update that its relations admit.
pub fn live_sessions_grow()
    ensures { LiveGrows }
{}

/// Updates may be admitted, stepped, answered and withdrawn in any order: what is committed is what the serial machine makes of
/// the committed updates alone.
pub fn live_histories_are_serial()
    ensures { LiveIsSerial }
{}

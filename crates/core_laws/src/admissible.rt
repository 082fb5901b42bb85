//! The theorem on histories, for sessions that were read: a session that passed the checks of the language, and whose base
//! violates no mapping, is one that the theorem is about.
//!
//! Each law is the contract of a function that does nothing, so that it is proved and can be cited.
ghost use Rattle.core_laws.specs.Histories.{CheckedIsAdmissible, MappingsHold, WholeIsSerial};

/// A session that passed its checks, and whose base violates no mapping, is one that the theorem on histories is about.
pub fn checked_sessions_are_admissible()
    ensures { CheckedIsAdmissible }
{}

/// Let all updates of such a session be admitted in a legal history, in any order, with no withdrawal and no live answer. When
/// the history is quiet, its result is the one of the serial machine on the session.
pub fn whole_histories_are_serial()
    ensures { WholeIsSerial }
{}

/// Every mapping in force holds in what the committed updates of any legal history over such a session leave.
pub fn mappings_hold_in_what_is_left()
    ensures { MappingsHold }
{}

//! Laws of the journal of a run.
ghost use Rattle.std.specs.Prelude.{◌≤◌, ℕ, length};
ghost use Rattle.def_language.specs.Sessions.{SessionData};
ghost use Rattle.def_language.specs.Validity.{IsSession};
ghost use Rattle.run_serial.specs.Trails.{trails_by};
ghost use Rattle.run_laws.specs.Logged.{AreLogged, IsRun, RecoversAfter, StandFor, commits_of, opening_of};

use run_journal::journals_have_one_reading;

/// The beginning of a valid session is a session.
pub fn openings_are_sessions()
    ensures { (s : SessionData) → IsSession s → IsSession (opening_of s) }
{}

/// Only writes of tuples of the session's relations are logged of the serial machine's trails. There are at most as many trails
/// as updates.
pub fn trails_are_logged()
    ensures logged { (steps : ℕ) (s : SessionData) → IsRun steps s →
        AreLogged s.relations (commits_of (trails_by steps s)) }
    ensures few { (steps : ℕ) (s : SessionData) → length (trails_by steps s) ≤ length s.updates }
{}

/// The journal of a session's base and trails, cut after any commit, stands for what the serial machine leaves after that
/// number of updates, and recovers to it.
pub fn journals_recover_the_serial_run()
    ensures stand { (k steps : ℕ) (s : SessionData) → IsRun steps s → StandFor k steps s }
    ensures recovered { (k steps : ℕ) (s : SessionData) → IsRun steps s → RecoversAfter k steps s }
{
    journals_have_one_reading();
}

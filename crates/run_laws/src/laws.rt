//! Laws of what a run leaves.
ghost use Rattle.std.specs.Prelude.{◌≡◌, ◌≤◌, ℕ, List, None};
ghost use Rattle.def_language.specs.Sessions.{SessionData};
ghost use Rattle.def_language.specs.Validity.{IsSession};
ghost use Rattle.run_laws.specs.Explained.{ExplainsTruly};
ghost use Rattle.run_laws.specs.Logged.{IsRun};
ghost use Rattle.run_laws.specs.Kept.{InForceHold, IsRunnable, left_by, saved_by, LeavesFacts, SavesSession, SavesSpelled};
ghost use Rattle.run_laws.specs.Renamed.{IsRenamed};
ghost use Rattle.def_chase.specs.Laws.{HasNoNull};
ghost use Rattle.def_chase.specs.Mappings.{Holds, Rule};
ghost use Rattle.def_chase.specs.Repository.{IsRepository};
ghost use Rattle.def_chase.specs.Values.{Fact};
ghost use Rattle.lang_print.specs.Upgrades.{upgraded};
ghost use Rattle.chase_update.specs.Results.{ResultTold};
ghost use Rattle.lang_report.specs.Results.{serial_told};
ghost use Rattle.lang_report.specs.Saved.{saved};
ghost use Rattle.lang_session.specs.Base.{base_violation};

use def_language::sessions_are_read_again;
use def_provenance::laws::reasons_are_true;

/// Every tuple that the serial machine leaves of a valid session is a tuple of one of its relations: as many values as columns,
/// each an integer of 64 bits, a text of at most 256 bytes of UTF-8, or a null of the base or of an update. The tuples are in
/// order.
pub fn runs_leave_facts()
    ensures facts { (budget : ℕ) (s : SessionData) →
        IsSession s → 1 ≤ budget → budget ≤ 1000001 → LeavesFacts budget s }
    ensures in_order { (budget : ℕ) (s : SessionData) →
        IsSession s → 1 ≤ budget → budget ≤ 1000001 → IsRepository (left_by budget s) }
{}

/// If the saved session of a run is not too large, it is a session, and its printed form spells it.
pub fn saved_sessions_are_sessions()
    ensures session { (budget : ℕ) (s : SessionData) →
        IsSession s → 1 ≤ budget → budget ≤ 1000001 → SavesSession budget s }
    ensures spelled { (budget : ℕ) (s : SessionData) →
        IsSession s → 1 ≤ budget → budget ≤ 1000001 → SavesSpelled budget s }
{
    sessions_are_read_again();
}

/// If the base of the session meets the mappings, every mapping that is in force at the end of a run holds in the repository
/// that the run leaves: a mapping in force from the start, or one that an update which is done has put in force.
pub fn runs_meet_their_mappings()
    ensures { (budget : ℕ) (s : SessionData) → IsRunnable budget s →
        InForceHold s (serial_told budget s) }
{}

/// The base of a saved session is the repository under other names for its nulls, which keep their order and stay different.
pub fn bases_are_renamed()
    ensures { (s : SessionData) (r : ResultTold) → IsRenamed r.repository (saved s r).base }
{}

/// The base of a saved session meets its mappings, if the base of the session that ran does.
pub fn bases_meet_their_mappings()
    ensures { (budget : ℕ) (s : SessionData) →
        IsRunnable budget s → base_violation (saved_by budget s) ≡ None }
{}

/// A mapping without a null among its constants that holds in a repository also holds in it under other names for the nulls. A
/// repository stays one under such names.
pub fn names_keep_mappings()
    ensures hold { (m : Rule) (D E : List Fact) → HasNoNull m → IsRenamed D E → Holds m D →
        Holds m E }
    ensures in_order { (D E : List Fact) → IsRenamed D E → IsRepository D → IsRepository E }
{}

/// Each reason of an explanation of a tuple that a valid session's run leaves is true of the session's base and of the steps of
/// the serial machine.
pub fn explanations_are_true()
    ensures { (budget : ℕ) (s : SessionData) → IsRun budget s → ExplainsTruly budget s }
{
    reasons_are_true();
}

/// The same session in format 2 is a session too, and the serial machine's result is the same.
pub fn upgrades_tell_the_same()
    ensures session { (s : SessionData) → IsSession s → IsSession (upgraded s) }
    ensures told { (budget : ℕ) (s : SessionData) →
        serial_told budget (upgraded s) ≡ serial_told budget s }
{}

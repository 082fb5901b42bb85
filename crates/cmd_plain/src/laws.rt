//! Laws on what the commands write that run the updates.
ghost use Rattle.std.specs.Prelude.{◌≡◌, ◌≤◌, ℕ, List};
ghost use Rattle.cmd_frame.specs.Devices.{Change};
ghost use Rattle.cmd_frame.specs.Outputs.{OutputView};
ghost use Rattle.cmd_frame.specs.Rows.{Row};
ghost use Rattle.cmd_frame.specs.Statuses.{status_of};
ghost use Rattle.cmd_frame.specs.declared.statuses.Status.{Status};
ghost use Rattle.cmd_plain.specs.Commands.{on_session};
ghost use Rattle.cmd_plain.specs.Journaled.{recovering};
ghost use Rattle.cmd_plain.specs.Runs.{ran};
ghost use Rattle.cmd_plain.specs.Written.{EndsOrStops, HasWritten, WritesWhatHolds, WroteWhatHolds};
ghost use Rattle.def_language.specs.Sessions.{SessionData};
ghost use Rattle.run_laws.specs.Kept.{IsRunnable};

use def_language::spelled_sessions_are_valid;
use run_journal::{damaged_bytes_are_no_journal, inputs_are_journals_or_damaged};
use run_laws::runs_meet_their_mappings;

/// For a valid session whose base meets its mappings, `serial` writes a repository in which every mapping in force holds. A
/// mapping is in force from the start, or since an update that adds it is done. It ends with status 0, or stops at a question
/// with status 1.
pub fn runs_write_what_holds()
    ensures written { (steps : ℕ) (s : SessionData) → IsRunnable steps s → WritesWhatHolds steps s }
    ensures status { (steps : ℕ) (s : SessionData) → IsRunnable steps s → EndsOrStops steps s }
{
    runs_meet_their_mappings();
}

/// If `serial`, with a valid budget, ends or stops at a question, every mapping in force holds in the repository that it has
/// written.
pub fn performed_runs_write_what_holds()
    ensures { (steps : ℕ) (status : Status) (source out err : Change) → 1 ≤ steps →
        steps ≤ 1000001 → HasWritten status → Row status (on_session (ran steps)) source out err →
        WroteWhatHolds steps source out }
{
    spelled_sessions_are_valid();
    runs_meet_their_mappings();
}

/// Each input begins with a journal or is damaged, so `recover` has an output for it.
pub fn each_input_is_recovered_or_refused()
    ensures { (input : List ℕ) → (output : OutputView) × recovering input output }
{
    inputs_are_journals_or_damaged();
}

/// No input both begins with a journal and is damaged, so `recover` has one status for it.
pub fn recovered_inputs_have_one_status()
    ensures { (input : List ℕ) (output other : OutputView) → recovering input output →
        recovering input other → status_of output ≡ status_of other }
{
    damaged_bytes_are_no_journal();
}

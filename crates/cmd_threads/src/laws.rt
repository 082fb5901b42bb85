//! Laws on what the command `run` makes and writes.
ghost use Rattle.std.specs.Prelude.{◌≡◌, ◌≤◌, ℕ, Bool, List, false};
ghost use Rattle.cmd_frame.specs.Devices.{Change};
ghost use Rattle.cmd_frame.specs.Outputs.{OutputView};
ghost use Rattle.cmd_frame.specs.Rows.{Row};
ghost use Rattle.cmd_frame.specs.Statuses.{status_of};
ghost use Rattle.cmd_frame.specs.declared.statuses.Status.{Status};
ghost use Rattle.cmd_plain.specs.Commands.{on_session, on_session_by};
ghost use Rattle.cmd_plain.specs.Runs.{ran};
ghost use Rattle.cmd_plain.specs.Written.{HasWritten};
ghost use Rattle.def_machine.specs.Updates.{Settings};
ghost use Rattle.cmd_threads.specs.Runs.{running};
ghost use Rattle.cmd_threads.specs.Written.{WroteRun};

use def_language::spelled_sessions_are_valid;
use run_laws::runs_meet_their_mappings;

/// Without its trace, `run` makes of an input the same output as `serial`, whatever the workers and the settings.
pub fn untraced_runs_are_serial()
    ensures { (steps : ℕ) (c : Settings) (input : List ℕ) (output : OutputView) →
        on_session_by (running false steps c) input output → on_session (ran steps) input output }
{}

/// With its trace or without, `run` ends on an input with the same status as `serial`.
pub fn runs_have_the_serial_status()
    ensures { (trace : Bool) (steps : ℕ) (c : Settings) (input : List ℕ)
        (output other : OutputView) → on_session_by (running trace steps c) input output →
        on_session (ran steps) input other → status_of output ≡ status_of other }
{}

/// If `run`, with a valid budget, ends or stops at a question, it has written the result text of the serial machine's result on
/// the session. If it was asked for, the trace of one of the session's histories follows. Every mapping in force holds in the
/// repository of that result.
pub fn performed_runs_write_their_trace()
    ensures { (trace : Bool) (steps : ℕ) (c : Settings) (status : Status)
        (source out err : Change) → 1 ≤ steps → steps ≤ 1000001 → HasWritten status →
        Row status (on_session_by (running trace steps c)) source out err →
        WroteRun trace steps c source out }
{
    spelled_sessions_are_valid();
    runs_meet_their_mappings();
}

//! Laws on what `run` writes and `audit` reads.
ghost use Rattle.std.specs.Prelude.{◌≡◌, ℕ, List, None};
ghost use Rattle.cmd_laws.specs.Circle.{HasPrintable, IsAudited, IsCalled, IsInputOf, IsJudged, output_of, said_of};
ghost use Rattle.cmd_frame.specs.Outputs.{OutputView};
ghost use Rattle.def_language.specs.Printing.{printed};
ghost use Rattle.work_session.specs.Runs.{Run};
ghost use Rattle.lang_session.specs.Base.{base_violation};
ghost use Rattle.audit_claims.specs.Verdicts.{Verdict};

use audit_claims::{histories_have_their_verdict, verdicts_are_one};
use cmd_plain::audited_inputs_have_one_output;
use def_language::{inputs_are_statements, sessions_are_read_again, words_are_read_again};

/// Every entry of a run can be printed: its update is one of the first 1,000, its numbers have at most 64 bits, its texts are
/// UTF-8, and the choice of an answer is read again from its text.
pub fn runs_are_printable()
    ensures { (r : Run) → IsCalled r → HasPrintable r }
{}

/// The only verdict on the trace of a run is yes, with all its entries and nothing left to do.
pub fn traces_of_runs_are_judged()
    ensures yes { (r : Run) → IsCalled r → IsJudged r (said_of r) }
    ensures alone { (r : Run) (v : Verdict) → IsCalled r → IsJudged r v → v ≡ said_of r }
{
    histories_have_their_verdict();
    verdicts_are_one();
}

/// If the output of `run --trace` is put after its input, `audit` says `yes .. quiet` of both, and has no other output. This
/// holds if the base meets the mappings, and the input ends with the line feed of its `end`.
pub fn what_run_writes_is_audited()
    ensures yes { (r : Run) (input : List ℕ) → IsCalled r → IsInputOf r input →
        base_violation r.session ≡ None → IsAudited r input (output_of r) }
    ensures alone { (r : Run) (input : List ℕ) (output : OutputView) → IsCalled r →
        IsInputOf r input → base_violation r.session ≡ None → IsAudited r input output →
        output ≡ output_of r }
{
    traces_of_runs_are_judged();
    audited_inputs_have_one_output();
}

/// The printed form of the session of a run is an input that ends with the line feed of its `end`.
pub fn printed_sessions_are_inputs()
    ensures { (r : Run) → IsCalled r → IsInputOf r (printed r.session) }
{
    inputs_are_statements();
    sessions_are_read_again();
    words_are_read_again();
}

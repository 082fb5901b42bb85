//! A law on the output of `audit`.
ghost use Rattle.std.specs.Prelude.{◌≡◌, ℕ, List};
ghost use Rattle.cmd_plain.specs.Audited.{audited};
ghost use Rattle.cmd_frame.specs.Outputs.{OutputView};
ghost use Rattle.def_machine.specs.Updates.{Settings};

use audit_claims::verdicts_are_one;

/// `audit` makes only one output of an input.
pub fn audited_inputs_have_one_output()
    ensures { (budget : ℕ) (c : Settings) (input : List ℕ) (output other : OutputView) →
        audited budget c input output → audited budget c input other → output ≡ other }
{
    verdicts_are_one();
}

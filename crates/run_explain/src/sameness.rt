//! Whether two lists of reasons are the same.
ghost use Rattle.std.specs.Prelude.{◌≡◌, ◌↔◌, IsTrue};
ghost use Rattle.run_explain.specs.ReasonMeanings.{reasons_in};

use crate::reasons::Explanation;

/// Whether these are the same reasons in the same order.
pub fn same_reasons(told: &Explanation, given: &Explanation) -> bool
    ensures same { IsTrue result ↔ (reasons_in told.now ≡ reasons_in given.now) }
{
    told == given
}

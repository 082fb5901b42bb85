//! The candidates that a set has at hand, as writes leave them.
ghost use Rattle.std.specs.Prelude.{◌≡◌, ℕ, List, Option};
ghost use Rattle.def_chase.specs.Repository.{IsRepository};
ghost use Rattle.def_chase.specs.Values.{Datum, Fact};
ghost use Rattle.base_types.specs.Candidates.{further_candidates, AreAll, AreFirst};
ghost use Rattle.set_facts.specs.Overlaid.{overlaid};
ghost use Rattle.set_facts.specs.Runs.{run_of};

use crate::group::Group;
use crate::merging::Merging;
use crate::runs::Run;
use base_tree::Few;
use base_types::{Candidates, Tuple};

/// The first of the set's candidates without the tuples `gone` and with the added ones, of which `few` are the first. The answer
/// is `Apart` if `given` are not all of the set's candidates.
#[inline(always)]
pub(crate) fn changed<'a>(
    given: Candidates<'a>,
    gone: &'a Group,
    few: Few<'a, Tuple>,
) -> Candidates<'a>
    ensures all { (D added : List Fact) (r : ℕ) (c : Option (ℕ × Datum)) (past : Option Fact) →
        IsRepository added → AreFirst few.entry (further_candidates added r c past) →
        AreAll given.entry D (further_candidates D r c past) →
        AreAll result (overlaid D gone.now added)
        (further_candidates (overlaid D gone.now added) r c past) }
{
    let run = match given {
        Candidates::Apart => return Candidates::Apart,
        Candidates::Opening(_) => return Candidates::Apart,
        Candidates::Absent => return Candidates::Few(few),
        Candidates::Together(range) => Run::Together(range),
        Candidates::Listed(tuples) => Run::Listed(tuples),
        Candidates::Few(first) => {
            if first.is_full() {
                return Candidates::Apart;
            }
            Run::Few(first)
        }
    };
    Candidates::Few(first_of_both(run, gone, few))
}

// The first candidates as the writes leave them, if `run` are all the set's candidates.
#[inline(always)]
fn first_of_both<'a>(run: Run<'a>, gone: &'a Group, few: Few<'a, Tuple>) -> Few<'a, Tuple>
    ensures first { (D added : List Fact) (r : ℕ) (c : Option (ℕ × Datum)) (past : Option Fact) →
        IsRepository D → IsRepository added → run_of run.entry ≡ further_candidates D r c past →
        AreFirst few.entry (further_candidates added r c past) →
        AreFirst result (further_candidates (overlaid D gone.now added) r c past) }
{
    let mut added = Run::Few(few);
    let put = added.next();
    let mut both = Merging::new(run, gone, put, added);
    both.few()
}

//! The end of a look that found a violation to be repaired by deletions.
ghost use Rattle.std.specs.Prelude.{◌≡◌, false, IfOk};
ghost use Rattle.base_types.specs.Contents.{changes_of, facts_of};
ghost use Rattle.def_steps.specs.Steps.{makes, negative};
ghost use Rattle.chase_repair.specs.Repairs.{phase_of, is_asking};
ghost use Rattle.chase_repair.specs.Stages.{repairing_of, IsSound};
ghost use Rattle.chase_repair.specs.declared.stages.Generation.{Generation};

use crate::boxing::boxed;
use crate::rewriting::deletions;
use crate::stages::Stage;
use base_types::{List, Memory, TupleList, WriteList};
use chase_question::Question;
use std::alloc::Global;

/// A single tuple is deleted. If there are several, a person is asked which to delete, in a question that has the mapping's
/// number.
pub(crate) fn look_back(
    alloc: Global,
    number: u16,
    tuples: TupleList,
) -> Result<(Stage, WriteList), Memory>
    ensures look { IfOk result (λ end. (g : Generation) →
        makes (changes_of end.1) (phase_of (repairing_of g end.0)) ≡
        negative number (facts_of tuples)) }
    ensures rests { IfOk result (λ end. (g : Generation) →
        is_asking (repairing_of g end.0) ≡ false) }
    ensures sound { IfOk result (λ end. (g : Generation) → IsSound g end.0) }
{
    if tuples.len() > 1 {
        let question = Question::Negative {
            mapping: number,
            tuples,
        };
        Ok((Stage::Waiting(boxed(alloc, question)?), List::new(alloc)))
    } else {
        Ok((Stage::Repaired, deletions(alloc, tuples)?))
    }
}

//! The step of a right atom, once the tuples that are more specific than the generated one are known.
ghost use Rattle.std.specs.Prelude.{◌≡◌, true, false, map, IfOk, OnErr};
ghost use Rattle.std.specs.List.{list_all};
ghost use Rattle.def_chase.specs.Specific.{more_specific};
ghost use Rattle.base_types.specs.Meanings.{fact_of};
ghost use Rattle.chase_repair.specs.Repairs.{is_asking};
ghost use Rattle.chase_repair.specs.Stages.{repairing_of, HasCompared, IsSound};

use crate::answers::copies;
use crate::boxing::boxed;
use crate::generating::go_on;
use crate::stages::{Generation, Stage};
use base_limits::Mappings;
use base_types::{Memory, TryCopy, Tuple, Write, WriteList};
use chase_question::Question;
use std::alloc::Global;
use std::mem;

/// The stage at the end of the step, given the candidates, which are more specific than the generated tuple. If there are none,
/// the generated tuple is moved out of `tuple` and inserted; otherwise a person is asked. If it is refused, everything is
/// unchanged.
pub(crate) fn compared(
    alloc: Global,
    generation: &mut Generation,
    own: &mut WriteList,
    tuple: &mut Tuple,
    candidates: &[Tuple],
    mappings: &Mappings<'_>,
) -> Result<Stage, Memory>
    requires specific { list_all (λ s. more_specific s (fact_of tuple.old))
        (map fact_of candidates.now) ≡ true }
    ensures step { IfOk result (λ stage. HasCompared mappings.now (map fact_of candidates.now)
        own.old generation.old (fact_of tuple.old)
        own.new (repairing_of generation.new stage)) }
    ensures rests { IfOk result (λ stage. is_asking (repairing_of generation.new stage) ≡ false) }
    ensures sound { IfOk result (λ stage. IsSound generation.new stage) }
    ensures generation { OnErr result (generation.new ≡ generation.old) }
    ensures tuple { OnErr result (tuple.new ≡ tuple.old) }
    ensures own { OnErr result (own.new.items ≡ own.old.items) }
{
    if candidates.is_empty() {
        own.reserve(1)?;
        own.push(Write::Insert(taken(tuple)))?;
        Ok(go_on(generation, mappings))
    } else {
        let candidates = copies(alloc, candidates)?;
        let question = Question::Positive {
            mapping: generation.mapping,
            tuple: tuple.copy(alloc)?,
            candidates,
        };
        Ok(Stage::Waiting(boxed(alloc, question)?))
    }
}

/// The tuple, moved out of a place that the caller writes again.
pub(crate) fn taken(tuple: &mut Tuple) -> Tuple
    ensures tuple { result ≡ tuple.old }
{
    mem::replace(tuple, Tuple::least(0))
}

//! The unifier of an answer `Unify`, and the nulls that it moves.
ghost use Rattle.std.specs.Prelude.{◌≡◌, true, map, IfOk};
ghost use Rattle.std.specs.List.{list_all};
ghost use Rattle.def_chase.specs.Specific.{more_specific};
ghost use Rattle.base_types.specs.Contents.{facts_of};
ghost use Rattle.base_types.specs.Meanings.{null_of, fact_of};
ghost use Rattle.base_types.specs.Maps.{images_of, moved_by};
ghost use Rattle.def_steps.specs.Questions.{candidate as chosen_candidate};
ghost use Rattle.chase_repair.specs.Unifying.{nulls_moved_with, unifier_with};

use crate::nulls::moved_nulls;
use base_types::{Memory, Null, Sub, Tuple, TupleList};
use chase_question::candidate;
use chase_unifier::unifier;
use std::alloc::Global;

/// The unifier of the tuple and the candidate with this outer form, and the nulls that it moves, in order.
pub(crate) fn plan(
    alloc: Global,
    tuple: &Tuple,
    candidates: &TupleList,
    form: &Tuple,
) -> Result<(Sub, Vec<Null>), Memory>
    requires { list_all (λ s. more_specific s (fact_of tuple.now))
        (facts_of candidates.now) ≡ true }
    ensures unifier { IfOk result (λ plan.
        moved_by (images_of plan.0) ≡ unifier_with tuple.now candidates.now form.now) }
    ensures nulls { IfOk result (λ plan.
        map null_of plan.1.items ≡ nulls_moved_with tuple.now candidates.now form.now) }
{
    let sub = unifier(alloc, tuple, named_candidate(tuple, candidates, form))?;
    let nulls = moved_nulls(alloc, &sub, tuple)?;
    Ok((sub, nulls.into_vec()))
}

// The candidate with this outer form. If there is none, it is the tuple itself, as the steps of the chase define it.
fn named_candidate<'a>(tuple: &'a Tuple, candidates: &'a TupleList, form: &Tuple) -> &'a Tuple
    ensures { fact_of result.now ≡ chosen_candidate (fact_of tuple.now)
        (facts_of candidates.now) (fact_of form.now) }
{
    candidate(candidates, form).unwrap_or(tuple)
}

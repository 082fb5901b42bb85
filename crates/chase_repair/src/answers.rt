//! The parts of answers to queries that a step needs.
ghost use Rattle.std.specs.Prelude.{◌≡◌, map, IfOk};
ghost use Rattle.base_types.specs.Meanings.{fact_of};
ghost use Rattle.chase_query.specs.Meanings.{reply_of};
ghost use Rattle.def_steps.specs.Steps.{is_yes as is_yes_def, tuples_of as tuples_of_def};

use base_types::{List, Memory, TryCopy, Tuple, TupleList};
use chase_query::Reply;
use std::alloc::Global;

/// Whether the answer is yes.
pub(crate) fn is_yes(answer: &Reply) -> bool
    ensures answer { result ≡ is_yes_def (reply_of answer.now) }
{
    matches!(answer, Reply::Yes)
}

/// The tuples of an answer to `Specific` or `Occurs`; none for any other answer.
pub(crate) fn tuples_of(answer: &Reply) -> &[Tuple]
    ensures tuples { map fact_of result.now ≡ tuples_of_def (reply_of answer.now) }
{
    match answer {
        Reply::Tuples(tuples) => tuples.as_slice(),
        Reply::Yes => &[],
        Reply::No => &[],
        Reply::Image(_) => &[],
        Reply::Nothing => &[],
    }
}

/// Copies of the tuples.
pub(crate) fn copies(alloc: Global, tuples: &[Tuple]) -> Result<TupleList, Memory>
    ensures same { IfOk result (λ copies. map fact_of copies.items ≡ map fact_of tuples.now) }
{
    let mut copies = List::new(alloc);
    copies.reserve(tuples.len())?;
    for tuple in tuples {
        copies.push(tuple.copy(alloc)?)?;
    }
    Ok(copies)
}

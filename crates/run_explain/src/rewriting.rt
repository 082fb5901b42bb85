//! Which of the tuples that a rewriting deleted became a tuple that it put.
ghost use Rattle.std.specs.Prelude.{◌≡◌, map, IfOk};
ghost use Rattle.def_chase.specs.Values.{under};
ghost use Rattle.base_types.specs.Meanings.{datum_of, fact_of};
ghost use Rattle.def_steps.specs.Rewriting.{replacing};
ghost use Rattle.run_note.specs.Meanings.{rewriting_of};
ghost use Rattle.def_provenance.specs.Reasons.{source as source_def};

use base_types::{List, Memory, TryCopy, Tuple, Value};
use chase_unifier::apply;
use run_note::Rewriting;
use std::alloc::Global;

/// The first of the tuples that the substitution takes to this one; this one itself if there is none.
pub(crate) fn source(
    alloc: Global,
    rewriting: &Rewriting,
    deleted: &[Tuple],
    tuple: &Tuple,
) -> Result<Tuple, Memory>
    ensures source { IfOk result (λ from. fact_of from ≡
        source_def (map fact_of deleted.now) (fact_of tuple.now) (rewriting_of rewriting.now)) }
{
    for from in deleted {
        if *tuple == rewritten(alloc, rewriting, from)? {
            return from.copy(alloc);
        }
    }
    tuple.copy(alloc)
}

// The tuple with its values substituted.
fn rewritten(alloc: Global, rewriting: &Rewriting, tuple: &Tuple) -> Result<Tuple, Memory>
    ensures rewritten { IfOk result (λ moved. fact_of moved ≡
        under (rewriting_of rewriting.now) (fact_of tuple.now)) }
{
    match rewriting {
        Rewriting::Replaces { from, to } => replaced(alloc, from, to, tuple),
        Rewriting::Unifies(unifier) => apply(alloc, unifier, tuple),
    }
}

// The tuple with this value in place of that one.
fn replaced(alloc: Global, from: &Value, to: &Value, tuple: &Tuple) -> Result<Tuple, Memory>
    ensures replaced { IfOk result (λ moved. fact_of moved ≡
        under (replacing (datum_of from.now) (datum_of to.now)) (fact_of tuple.now)) }
{
    let mut values = List::new(alloc);
    for value in tuple.values.as_slice() {
        values.push(replaced_value(alloc, from, to, value)?)?;
    }
    Tuple::new(alloc, tuple.relation, values)
}

fn replaced_value(alloc: Global, from: &Value, to: &Value, value: &Value) -> Result<Value, Memory>
    ensures replaced { IfOk result (λ moved. datum_of moved ≡
        replacing (datum_of from.now) (datum_of to.now) (datum_of value.now)) }
{
    if value == from {
        to.copy(alloc)
    } else {
        value.copy(alloc)
    }
}

//! The right atoms of a repair in hand: the tuple that is generated for one, and the step to the next one.
ghost use Rattle.std.specs.Prelude.{◌≡◌, false, map, slice_get, IfOk};
ghost use Rattle.def_chase.specs.Mappings.{value_under, fact_under, listed as listed_def};
ghost use Rattle.base_types.specs.Contents.{data_of};
ghost use Rattle.base_types.specs.Meanings.{datum_of, fact_of, slot_of, pattern_of};
ghost use Rattle.def_steps.specs.Rewriting.{right_atoms as right_atoms_def, generated as generated_def, next_atom};
ghost use Rattle.chase_repair.specs.Repairs.{phase_of, is_asking};
ghost use Rattle.chase_repair.specs.Stages.{repair_of, repairing_of, IsSound};

use crate::stages::{Generation, Stage};
use base_limits::Mappings;
use base_types::{Atom, List, Memory, Term, TermRow, TryCopy, Tuple, Value, ValueList};
use std::alloc::Global;

/// The tuple that the repair generates next.
pub(crate) fn generated(
    alloc: Global,
    generation: &Generation,
    mappings: &Mappings<'_>,
) -> Result<Tuple, Memory>
    ensures value { IfOk result (λ tuple. fact_of tuple ≡
        generated_def mappings.now (repair_of generation.now)) }
{
    match right_atoms(mappings, generation.mapping).get(generation.atom) {
        Some(atom) => tuple_under(alloc, &generation.binding, atom),
        None => Ok(Tuple::least(0)),
    }
}

/// The stage after a right atom: the next one is to be generated, or the repair is at its end.
pub(crate) fn go_on(generation: &mut Generation, mappings: &Mappings<'_>) -> Stage
    ensures phase { phase_of (repairing_of generation.new result) ≡
        next_atom mappings.now (repair_of generation.old) }
    ensures rests { is_asking (repairing_of generation.new result) ≡ false }
    ensures sound { IsSound generation.new result }
{
    let count = right_atoms(mappings, generation.mapping).len();
    if count > 0 && generation.atom < count - 1 {
        generation.atom += 1;
        Stage::Generating
    } else {
        Stage::Repaired
    }
}

// The right atoms of the mapping of this number; none if there is no such mapping.
fn right_atoms<'a>(mappings: &Mappings<'a>, number: u16) -> &'a [Atom]
    ensures atoms { map pattern_of result.now ≡ right_atoms_def (slice_get mappings.now number) }
{
    match mappings.get(number as usize) {
        Some(mapping) => mapping.right.as_slice(),
        None => &[],
    }
}

/// The tuple of the atom under the values.
pub(crate) fn tuple_under(alloc: Global, binding: &ValueList, atom: &Atom) -> Result<Tuple, Memory>
    ensures value { IfOk result (λ tuple.
        fact_of tuple ≡ fact_under (listed_def (data_of binding.now)) (pattern_of atom.now)) }
{
    let values = values_under(alloc, binding, &atom.terms)?;
    Tuple::new(alloc, atom.relation, values)
}

// The values of the terms under the values of the variables.
fn values_under(alloc: Global, binding: &ValueList, terms: &TermRow) -> Result<ValueList, Memory>
    ensures value { IfOk result (λ values.
        data_of values ≡ map (value_under (listed_def (data_of binding.now)))
        (map slot_of terms.now.items)) }
{
    let mut values = List::new(alloc);
    values.reserve(terms.len())?;
    for term in terms.as_slice() {
        values.push(value_of(alloc, binding, term)?)?;
    }
    Ok(values)
}

// The value of the term; the number 0 for a variable that has none.
fn value_of(alloc: Global, binding: &ValueList, term: &Term) -> Result<Value, Memory>
    ensures value { IfOk result (λ value.
        datum_of value ≡ value_under (listed_def (data_of binding.now)) (slot_of term.now)) }
{
    match term {
        Term::Const(value) => value.copy(alloc),
        Term::Var(variable) => match binding.get(*variable as usize) {
            Some(value) => value.copy(alloc),
            None => Ok(Value::Int(0)),
        },
    }
}

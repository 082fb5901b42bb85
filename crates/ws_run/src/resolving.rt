//! The values of an update as they stand in the tuples.
ghost use Rattle.std.specs.Prelude.{◌≡◌, ◌+◌, map, Some, IfOk, IfErr};
ghost use Rattle.base_types.specs.Contents.{data_of, facts_of};
ghost use Rattle.base_types.specs.Meanings.{datum_of, fact_of, null_of};
ghost use Rattle.def_chase.specs.Values.{Unknown};
ghost use Rattle.def_workspace.specs.Names.{stands_in as stands_in_facts};
ghost use Rattle.def_workspace.specs.Ops.{AllThere, Course, There, all_found, found as found_value_of, found_null as found_null_of, found_spelled as found_spelled_of, with_facts, with_spelled};
ghost use Rattle.ws_lines.specs.Meanings.{spelled_fact_of, spelled_of};
ghost use Rattle.ws_run.specs.Finding.{GoesOnWith, HaltsFirst, IsOver, Loses, LosesOne};

use crate::halts::{Halt, Reason};
use base_types::{Facts, Memory, Null, OuterName, TryCopy, Tuple, TupleList, Value, ValueList};
use set_facts::IndexedFacts;
use std::alloc::Global;
use ws_ground::Ground;
use ws_lines::{Spelled, SpelledTuple};

/// The value with the null in place of its name; halts if no tuple has the unknown.
pub(crate) fn found(alloc: Global, ground: &Ground, value: &Value) -> Result<Value, Halt>
    ensures there { IfOk result (λ found.
        found_value_of ground.now.names ground.now.facts (datum_of value.now) ≡
        There (datum_of found)) }
    ensures lost { IfErr result
        (Loses (found_value_of ground.now.names ground.now.facts (datum_of value.now))) }
{
    match value {
        Value::Null(name) => {
            let null = found_null(ground, *name)?;
            Ok(Value::Null(null))
        }
        Value::Int(_) => Ok(value.copy(alloc)?),
        Value::Word(_) => Ok(value.copy(alloc)?),
    }
}

/// The null with this name; halts if no tuple has it.
pub(crate) fn found_null(ground: &Ground, name: Null) -> Result<Null, Halt>
    ensures there { IfOk result (λ null.
        found_value_of ground.now.names ground.now.facts (Unknown (null_of name)) ≡
        There (Unknown (null_of null))) }
    ensures lost { IfErr result
        (Loses (found_value_of ground.now.names ground.now.facts (Unknown (null_of name)))) }
{
    match ground.names.null_called(name) {
        Some(null) => standing(&ground.facts, name, null),
        None => Err(Halt::Left(Reason::NotThere(name))),
    }
}

// The null, which has this name; halts if no tuple has it.
fn standing(facts: &IndexedFacts, name: Null, null: Null) -> Result<Null, Halt>
    ensures there { IfOk result (λ there.
        found_null_of facts.now (null_of name) (Some (null_of null)) ≡
        There (Unknown (null_of there))) }
    ensures lost { IfErr result
        (Loses (found_null_of facts.now (null_of name) (Some (null_of null)))) }
{
    if stands_in(facts, null) {
        return Ok(null);
    }
    Err(Halt::Left(Reason::NotThere(name)))
}

// Whether some tuple has the null.
fn stands_in(facts: &IndexedFacts, null: Null) -> bool
    ensures stands { result ≡ stands_in_facts facts.now (null_of null) }
{
    let name = OuterName {
        update: null.update,
        place: null.place,
    };
    facts.holding(name, None).is_some()
}

/// The values with nulls in place of names; halts if no tuple has one of the unknowns.
#[tactic(auto, using(crate::proofs::Found::found_none, crate::proofs::Found::found_on, crate::proofs::Found::lost_at, crate::proofs::Found::wants_memory, crate::proofs::Found::found_end))]
pub(crate) fn found_all(alloc: Global, ground: &Ground, values: &[Value]) -> Result<ValueList, Halt>
    ensures there { IfOk result (λ all.
        all_found (found_value_of ground.now.names ground.now.facts) (map datum_of values.now) ≡
        AllThere (data_of all)) }
    ensures lost { IfErr result (LosesOne
        (all_found (found_value_of ground.now.names ground.now.facts)
        (map datum_of values.now))) }
{
    let mut all = ValueList::new(alloc);
    for value in values {
        all.push(found(alloc, ground, value)?)?;
    }
    Ok(all)
}

/// The tuples with nulls in place of names; halts if no tuple has one of the unknowns.
pub(crate) fn found_tuples(
    alloc: Global,
    ground: &Ground,
    tuples: &[Tuple],
) -> Result<TupleList, Halt>
    ensures there { IfOk result (λ all. (c : Course) → IsOver ground.now c →
        GoesOnWith (with_facts c (map fact_of tuples.now)) (facts_of all)) }
    ensures lost { IfErr result (λ halt. (c : Course) → IsOver ground.now c →
        HaltsFirst (with_facts c (map fact_of tuples.now)) c halt) }
{
    let mut all = TupleList::new(alloc);
    for tuple in tuples {
        let values = found_all(alloc, ground, tuple.values.as_slice())?;
        all.push(Tuple::new(alloc, tuple.relation, values)?)?;
    }
    Ok(all)
}

/// The tuples of a line with nulls in place of names. Its new unknowns were drawn by the ops after number `first`.
pub(crate) fn found_spelled(
    alloc: Global,
    ground: &Ground,
    first: u32,
    tuples: &[SpelledTuple],
) -> Result<TupleList, Halt>
    ensures there { IfOk result (λ all. (c : Course) → IsOver ground.now c →
        GoesOnWith (with_spelled first c (map spelled_fact_of tuples.now)) (facts_of all)) }
    ensures lost { IfErr result (λ halt. (c : Course) → IsOver ground.now c →
        HaltsFirst (with_spelled first c (map spelled_fact_of tuples.now)) c halt) }
{
    let mut all = TupleList::new(alloc);
    for tuple in tuples {
        let values = found_row(alloc, ground, first, tuple.values.as_slice())?;
        all.push(Tuple::new(alloc, tuple.relation, values)?)?;
    }
    Ok(all)
}

#[tactic(auto, using(crate::proofs::Found::found_none, crate::proofs::Found::found_on, crate::proofs::Found::lost_at, crate::proofs::Found::wants_memory, crate::proofs::Found::found_end))]
fn found_row(
    alloc: Global,
    ground: &Ground,
    first: u32,
    values: &[Spelled],
) -> Result<ValueList, Halt>
    ensures there { IfOk result (λ all.
        all_found (found_spelled_of first ground.now.names ground.now.facts)
        (map spelled_of values.now) ≡ AllThere (data_of all)) }
    ensures lost { IfErr result (LosesOne
        (all_found (found_spelled_of first ground.now.names ground.now.facts)
        (map spelled_of values.now))) }
{
    let mut all = ValueList::new(alloc);
    for value in values {
        all.push(found_value(alloc, ground, first, value)?)?;
    }
    Ok(all)
}

fn found_value(alloc: Global, ground: &Ground, first: u32, value: &Spelled) -> Result<Value, Halt>
    ensures there { IfOk result (λ found.
        found_spelled_of first ground.now.names ground.now.facts (spelled_of value.now) ≡
        There (datum_of found)) }
    ensures lost { IfErr result (Loses
        (found_spelled_of first ground.now.names ground.now.facts (spelled_of value.now))) }
{
    match value {
        Spelled::Known(value) => {
            let value = found(alloc, ground, value)?;
            Ok(value)
        }
        Spelled::New(number) => {
            let null = drawn_as(first, *number)?;
            Ok(Value::Null(null))
        }
    }
}

/// The null of the new unknown with this number, which is drawn by the op `first + number`. It is refused only if numbers do not
/// suffice.
pub(crate) fn drawn_as(first: u32, number: u32) -> Result<Null, Memory>
    ensures null { IfOk result (λ null. null_of null ≡
        record { update = first + number; attempt = 0; place = 1 }) }
{
    match first.checked_add(number) {
        Some(update) => Ok(Null {
            update,
            attempt: 0,
            place: 1,
        }),
        None => Err(Memory),
    }
}

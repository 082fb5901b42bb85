//! The named nulls of an operation, and the values that they stand for.
ghost use Rattle.std.specs.Prelude.{◌≡◌, map, find, IfOk};
ghost use Rattle.std.specs.Option.{option_map, option_copied};
ghost use Rattle.def_chase.specs.Queries.{is_named as is_named_def};
ghost use Rattle.def_chase.specs.Values.{under};
ghost use Rattle.base_types.specs.Contents.{facts_of};
ghost use Rattle.base_types.specs.Meanings.{null_of, datum_of, fact_of};
ghost use Rattle.chase_query.specs.Meanings.{reply_of};
ghost use Rattle.def_steps.specs.Rewriting.{standing_for as standing_for_def};
ghost use Rattle.chase_update.specs.Found.{settled as settled_def, stands_for as stands_for_def, first_named as first_named_def, is_found, some_of as some_of_def, holders_in};
ghost use Rattle.chase_update.specs.RowMeanings.{resolved_of};

use base_types::{List, Memory, Null, OuterName, TryCopy, Tuple, TupleList, Value};
use chase_query::Reply;
use std::alloc::Global;

/// A named null of an operation, and the value that it stands for.
#[derive(Debug, Drop)]
pub(crate) struct ResolvedNull {
    pub(crate) name: Null,
    pub(crate) value: Value,
}

impl TryCopy for ResolvedNull {
    ghost use Rattle.def_chase.specs.Values.{NullName, Datum};
    ghost use Rattle.chase_update.specs.RowMeanings.{resolved_of};

    ghost Meaning = { NullName × Datum };

    ghost meaning = { resolved_of };

    fn copy(&self, alloc: Global) -> Result<ResolvedNull, Memory>
        ensures same { IfOk result (λ copy. resolved_of copy ≡ resolved_of self.now) }
    {
        Ok(ResolvedNull {
            name: self.name,
            value: self.value.copy(alloc)?,
        })
    }
}

/// Named nulls, each with the value that it stands for.
pub(crate) type ResolvedNullList = List<ResolvedNull>;

/// The tuples of an answer to `Occurs`; None exactly if there are none.
pub(crate) fn holders(answer: &Reply) -> Option<&TupleList>
    ensures found { option_map facts_of (option_copied result) ≡ holders_in (reply_of answer.now) }
{
    match answer {
        Reply::Tuples(tuples) => some_of(tuples),
        Reply::Yes => None,
        Reply::No => None,
        Reply::Image(_) => None,
        Reply::Nothing => None,
    }
}

// The tuples, if there are any.
fn some_of(tuples: &TupleList) -> Option<&TupleList>
    ensures found { option_map facts_of (option_copied result) ≡ some_of_def (facts_of tuples.now) }
{
    if tuples.is_empty() {
        None
    } else {
        Some(tuples)
    }
}

/// The value that the named null stands for: the first null with its update and place in the first of the tuples; the number 0 if
/// there is none.
pub fn standing_for(alloc: Global, name: Null, tuples: &TupleList) -> Result<Value, Memory>
    ensures value { IfOk result (λ value. datum_of value ≡
        standing_for_def (null_of name) (facts_of tuples.now)) }
{
    match tuples.get(0) {
        Some(tuple) => first_named(alloc, name, tuple.values.as_slice()),
        None => Ok(Value::Int(0)),
    }
}

// A copy of the first null of the same outer name among the values; the number 0 if there is none.
fn first_named(alloc: Global, name: Null, values: &[Value]) -> Result<Value, Memory>
    ensures value { IfOk result (λ value. datum_of value ≡
        first_named_def (null_of name) (map datum_of values.now)) }
{
    match find_named(name.outer_name(), values) {
        Some(value) => value.copy(alloc),
        None => Ok(Value::Int(0)),
    }
}

// The first null of this outer name among the values.
fn find_named(name: OuterName, values: &[Value]) -> Option<&Value>
    ensures found { option_map datum_of (option_copied result) ≡
        find (is_named_def name.update name.place) (map datum_of values.now) }
{
    values.iter().find(|value| value.is_named(name))
}

/// The tuple with each null replaced by the value that it stands for, or by the number 0 if it was not found.
pub(crate) fn resolved(
    alloc: Global,
    found: &[ResolvedNull],
    tuple: &Tuple,
) -> Result<Tuple, Memory>
    ensures value { IfOk result (λ known. fact_of known ≡
        under (settled_def (map resolved_of found.now)) (fact_of tuple.now)) }
{
    let mut values = List::new(alloc);
    values.reserve(tuple.values.len())?;
    for value in tuple.values.as_slice() {
        values.push(settled(alloc, found, value)?)?;
    }
    Tuple::new(alloc, tuple.relation, values)
}

// The value that the value stands for: itself, unless it is a null.
fn settled(alloc: Global, found: &[ResolvedNull], value: &Value) -> Result<Value, Memory>
    ensures value { IfOk result (λ known. datum_of known ≡
        settled_def (map resolved_of found.now) (datum_of value.now)) }
{
    match value {
        Value::Null(name) => stands_for(alloc, found, *name),
        Value::Int(_) => value.copy(alloc),
        Value::Word(_) => value.copy(alloc),
    }
}

// A copy of the value that the named null stands for; the number 0 if it was not found.
fn stands_for(alloc: Global, found: &[ResolvedNull], name: Null) -> Result<Value, Memory>
    ensures value { IfOk result (λ value. datum_of value ≡
        stands_for_def (map resolved_of found.now) (null_of name)) }
{
    match find_resolved(found, name) {
        Some(standing) => standing.value.copy(alloc),
        None => Ok(Value::Int(0)),
    }
}

// The first pair of the named null.
fn find_resolved(found: &[ResolvedNull], name: Null) -> Option<&ResolvedNull>
    ensures pair { option_map resolved_of (option_copied result) ≡
        find (is_found (null_of name)) (map resolved_of found.now) }
{
    found.iter().find(|standing| standing.name == name)
}

//! The tuples of a set by the nulls that they hold. The attempt that drew a null does not count.
ghost use Rattle.std.specs.Prelude.{◌≡◌, unwrap_or, [], OnOk, OnErr, IfOk};
ghost use Rattle.std.specs.Option.{option_copied};
ghost use Rattle.def_chase.specs.Queries.{holds_null, is_named};
ghost use Rattle.def_chase.specs.Repository.{IsRepository};
ghost use Rattle.base_types.specs.Meanings.{fact_of, datum_of};
ghost use Rattle.set_facts.specs.ByNull.{outer_null, holders_in, IsNullIndex, AddsHolder, AddsAtMostHolder, DropsHolder, AreSameHolders};

use crate::columns::{Groups, add, take_out};
use crate::group::Group;
use crate::plain::PlainFacts;
use base_types::{Memory, OuterName, Tuple, Value};
use indexmap::IndexMap;
use std::alloc::Global;
use std::hash::BuildHasherDefault;

/// The tuples that are kept at the nulls of this name, if there are any.
pub fn holders(by_null: &Groups, name: OuterName) -> Option<&Group>
    ensures kept { unwrap_or (option_copied result) []
        ≡ holders_in by_null.now name.update name.place }
{
    by_null.get(&outer(name))
}

/// The index of all tuples of the set.
pub fn index_nulls(alloc: Global, facts: &PlainFacts) -> Result<Groups, Memory>
    ensures index { IfOk result (λ by_null. IsNullIndex facts.now by_null) }
    ensures in_order { IsRepository facts.now }
{
    let mut by_null = IndexMap::with_hasher(alloc, BuildHasherDefault::new());
    for tuple in facts.iter() {
        keep_nulls(&mut by_null, alloc, tuple)?;
    }
    Ok(by_null)
}

/// Keeps a copy of the tuple at each null that it holds. If it is refused, some of these may keep the tuple; nothing else
/// changes.
pub fn keep_nulls(by_null: &mut Groups, alloc: Global, tuple: &Tuple) -> Result<(), Memory>
    ensures ok { OnOk result (AddsHolder (λ u k. holds_null u k (fact_of tuple.now))
        (fact_of tuple.now) by_null.old by_null.new) }
    ensures err { OnErr result (AddsAtMostHolder (fact_of tuple.now) by_null.old by_null.new) }
{
    for value in tuple.values.as_slice() {
        keep_at(by_null, alloc, value, tuple)?;
    }
    Ok(())
}

/// Takes the tuple, and no other, away from each null that it holds.
pub fn drop_nulls(by_null: &mut Groups, tuple: &Tuple)
    ensures dropped { DropsHolder (λ u k. holds_null u k (fact_of tuple.now))
        (fact_of tuple.now) by_null.old by_null.new }
{
    for value in tuple.values.as_slice() {
        drop_at(by_null, value, tuple);
    }
}

// Keeps a copy of the tuple at the value, if that is a null. If it is refused, nothing changes.
fn keep_at(by_null: &mut Groups, alloc: Global, value: &Value, tuple: &Tuple) -> Result<(), Memory>
    ensures ok { OnOk result (AddsHolder (λ u k. is_named u k (datum_of value.now))
        (fact_of tuple.now) by_null.old by_null.new) }
    ensures err { OnErr result (AreSameHolders by_null.old by_null.new) }
{
    match value {
        Value::Null(null) => add(by_null, alloc, &outer(null.outer_name()), tuple),
        Value::Int(_) => Ok(()),
        Value::Word(_) => Ok(()),
    }
}

// Takes the tuple away from the value, if that is a null.
fn drop_at(by_null: &mut Groups, value: &Value, tuple: &Tuple)
    ensures dropped { DropsHolder (λ u k. is_named u k (datum_of value.now))
        (fact_of tuple.now) by_null.old by_null.new }
{
    match value {
        Value::Null(null) => take_out(by_null, &outer(null.outer_name()), tuple),
        Value::Int(_) => {}
        Value::Word(_) => {}
    }
}

// The null of this name that the first attempt drew.
fn outer(name: OuterName) -> Value
    ensures { datum_of result ≡ outer_null name.update name.place }
{
    Value::Null(name.null())
}

//! The columns of one relation. Each finds tuples by the hash of their value in it, lists these values, and holds copies of its
//! own.
ghost use Rattle.std.specs.Map.{lookup};
ghost use Rattle.std.specs.Prelude.{◌≡◌, ◌↔◌, ℕ, not, ◌&&◌, ◌||◌, ◌<◌, length, map, unwrap_or, [], Some, IsTrue, IfSome, OnOk, OnErr};
ghost use Rattle.std.specs.Option.{option_copied};
ghost use Rattle.def_chase.specs.Values.{Datum, Fact, same_datum, same_fact};
ghost use Rattle.def_chase.specs.Repository.{has, change, Insert};
ghost use Rattle.base_types.specs.Meanings.{fact_of, datum_of};
ghost use Rattle.set_facts.specs.Indexes.{group_in, group_at, values_at, AreSame, AddsAtMost, Adds, AddsAll, Drops, DropsAll};

use crate::group::Group;
use crate::mixing::Mixer;
use base_types::{Facts, Memory, TryCopy, Tuple, Value};
use indexmap::IndexMap;
use std::alloc::Global;
use std::hash::BuildHasherDefault;

/// The tuples by their value in one column, and these values as a list.
pub type Groups = IndexMap<Value, Group, BuildHasherDefault<Mixer>>;

/// The tuples that the column keeps at the value, if the column exists and has the value.
pub fn group<'a>(columns: &'a Vec<Groups>, column: usize, value: &Value) -> Option<&'a Group>
    ensures group { unwrap_or (option_copied result) [] ≡
        group_at columns.now.items column (datum_of value.now) }
{
    match columns.get(column) {
        Some(groups) => groups.get(value),
        None => None,
    }
}

/// The values at which the column keeps tuples; none if there is no such column.
pub fn values(columns: &Vec<Groups>, column: usize) -> &[Value]
    ensures values { map datum_of result.now ≡ values_at columns.now.items column }
{
    match columns.get(column) {
        Some(groups) => groups.keys().as_slice(),
        None => &[],
    }
}

/// Keeps a copy of the tuple in each of its columns, at its value there. If it is refused, some of the columns may keep the
/// tuple; nothing else changes.
pub fn index(columns: &mut Vec<Groups>, alloc: Global, tuple: &Tuple) -> Result<(), Memory>
    ensures ok { OnOk result (AddsAll (fact_of tuple.now) columns.old.items columns.new.items) }
    ensures err { OnErr result
        (AddsAtMost (fact_of tuple.now) columns.old.items columns.new.items) }
{
    let values = tuple.values.as_slice();
    for column in 0..values.len() {
        add_at(columns, alloc, column, &values[column], tuple)?;
    }
    Ok(())
}

/// Takes the tuple, and no other, out of each of its columns.
pub fn sweep(columns: &mut Vec<Groups>, tuple: &Tuple)
    ensures dropped { DropsAll (fact_of tuple.now) columns.old.items columns.new.items }
{
    let values = tuple.values.as_slice();
    for column in 0..values.len() {
        sweep_at(columns, column, &values[column], tuple);
    }
}

// Keeps a copy of the tuple in this column, at the value. If it is refused, the columns are unchanged.
fn add_at(
    columns: &mut Vec<Groups>,
    alloc: Global,
    column: usize,
    value: &Value,
    tuple: &Tuple,
) -> Result<(), Memory>
    ensures ok { OnOk result ((d : Datum) (u : Fact) →
        has (group_at columns.new.items column d) u ≡
        (has (group_at columns.old.items column d) u ||
        (same_datum d (datum_of value.now) && same_fact u (fact_of tuple.now)))) }
    ensures others { (c : ℕ) (d : Datum) → (c ≡ column → ⊥) → group_at columns.new.items c d ≡
        group_at columns.old.items c d }
    ensures err { OnErr result (AreSame columns.old.items columns.new.items) }
{
    reach(columns, alloc, column)?;
    add(&mut columns[column], alloc, value, tuple)
}

// Makes the columns up to this one, if they do not exist yet.
fn reach(columns: &mut Vec<Groups>, alloc: Global, column: usize) -> Result<(), Memory>
    ensures same { AreSame columns.old.items columns.new.items }
    ensures there { OnOk result (column < length columns.new.items) }
{
    while columns.len() <= column {
        columns.push(IndexMap::with_hasher(alloc, BuildHasherDefault::new()))?;
    }
    Ok(())
}

/// Keeps a copy of the tuple at the value. The value is copied even if it is there already, so that a single search is enough.
pub fn add(groups: &mut Groups, alloc: Global, value: &Value, tuple: &Tuple) -> Result<(), Memory>
    ensures ok { OnOk result (Adds (datum_of value.now) (fact_of tuple.now) groups.old groups.new) }
    ensures err { OnErr result ((d : Datum) → group_in groups.new d ≡ group_in groups.old d) }
{
    match groups.entry(value.copy(alloc)?) {
        Ok(entry) => put(entry.or_insert(Group::new(alloc)), alloc, tuple),
        Err(_) => Err(Memory),
    }
}

// Puts a copy of the tuple into the group.
fn put(group: &mut Group, alloc: Global, tuple: &Tuple) -> Result<(), Memory>
    ensures ok { OnOk result (group.new ≡ change group.old (Insert (fact_of tuple.now))) }
    ensures err { OnErr result (group.new ≡ group.old) }
{
    group.insert(tuple.copy(alloc)?)?;
    Ok(())
}

// Takes the tuple out of the group of the value in this column.
fn sweep_at(columns: &mut Vec<Groups>, column: usize, value: &Value, tuple: &Tuple)
    ensures dropped { (d : Datum) (u : Fact) → has (group_at columns.new.items column d) u ≡
        (has (group_at columns.old.items column d) u &&
        not (same_datum d (datum_of value.now) && same_fact u (fact_of tuple.now))) }
    ensures others { (c : ℕ) (d : Datum) → (c ≡ column → ⊥) → group_at columns.new.items c d ≡
        group_at columns.old.items c d }
{
    match columns.get_mut(column) {
        Some(groups) => take_out(groups, value, tuple),
        None => {}
    }
}

/// Takes the tuple out of the group of the value, and removes the group if it is then empty.
pub fn take_out(groups: &mut Groups, value: &Value, tuple: &Tuple)
    ensures dropped { Drops (datum_of value.now) (fact_of tuple.now) groups.old groups.new }
    ensures vacant { IfSome (lookup (λ k. same_datum (datum_of value.now) (datum_of k))
        groups.new.entries) (λ group. group ≡ [] → ⊥) }
{
    if empties(groups, value, tuple) {
        groups.swap_remove(value);
    }
}

// Takes the tuple out of the group of the value, and returns whether the group is there and is now empty.
fn empties(groups: &mut Groups, value: &Value, tuple: &Tuple) -> bool
    ensures dropped { Drops (datum_of value.now) (fact_of tuple.now) groups.old groups.new }
    ensures vacant { IsTrue result ↔ (lookup (λ k. same_datum (datum_of value.now) (datum_of k))
        groups.new.entries ≡ Some []) }
{
    match groups.get_mut(value) {
        Some(group) => {
            group.remove(tuple);
            group.len() == 0
        }
        None => false,
    }
}

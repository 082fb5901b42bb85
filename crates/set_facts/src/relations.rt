//! The index of a set: for each relation, its columns.
ghost use Rattle.std.specs.Prelude.{◌≡◌, ℕ, ◌<◌, length, map, unwrap_or, [], OnOk, OnErr};
ghost use Rattle.std.specs.Option.{option_copied};
ghost use Rattle.def_chase.specs.Repository.{has};
ghost use Rattle.base_types.specs.Meanings.{fact_of, datum_of};
ghost use Rattle.set_facts.specs.Indexes.{columns_of, kept_at, values_kept, AddsAtMost, AddsAll, DropsAll, AddsAtMostOne, AddsOne, DropsOne};

use crate::columns::{Groups, group, index, sweep, values as values_in};
use crate::group::Group;
use base_types::{Facts, Memory, Tuple, Value};
use std::alloc::Global;

/// The columns of one relation.
pub type Columns = Vec<Groups>;

/// The tuples that the relation keeps at the value of the column, if there are any.
pub fn kept<'a>(
    relations: &'a Vec<Columns>,
    relation: u16,
    column: u16,
    value: &Value,
) -> Option<&'a Group>
    ensures kept { unwrap_or (option_copied result) [] ≡
        kept_at relations.now.items relation column (datum_of value.now) }
{
    match relations.get(relation as usize) {
        Some(columns) => group(columns, column as usize, value),
        None => None,
    }
}

/// The values at which the relation keeps tuples in the column.
pub fn values(relations: &Vec<Columns>, relation: u16, column: u16) -> &[Value]
    ensures values { map datum_of result.now ≡ values_kept relations.now.items relation column }
{
    match relations.get(relation as usize) {
        Some(columns) => values_in(columns, column as usize),
        None => &[],
    }
}

/// Whether the tuple's relation keeps it at the value of the column.
pub fn keeps(relations: &Vec<Columns>, column: u16, value: &Value, tuple: &Tuple) -> bool
    ensures kept { result ≡ has
        (kept_at relations.now.items tuple.now.relation column (datum_of value.now))
        (fact_of tuple.now) }
{
    match kept(relations, tuple.relation, column, value) {
        Some(group) => group.contains(tuple),
        None => false,
    }
}

/// Keeps a copy of the tuple in each column of its relation. If it is refused, some of the columns may keep the tuple; nothing
/// else changes.
pub fn keep(relations: &mut Vec<Columns>, alloc: Global, tuple: &Tuple) -> Result<(), Memory>
    ensures ok { OnOk result (AddsOne (fact_of tuple.now) relations.old.items relations.new.items) }
    ensures err { OnErr result
        (AddsAtMostOne (fact_of tuple.now) relations.old.items relations.new.items) }
{
    keep_at(relations, alloc, tuple.relation as usize, tuple)
}

/// Takes the tuple, and no other, out of each column of its relation.
pub fn drop_out(relations: &mut Vec<Columns>, tuple: &Tuple)
    ensures dropped { DropsOne (fact_of tuple.now) relations.old.items relations.new.items }
{
    drop_at(relations, tuple.relation as usize, tuple);
}

// Keeps a copy of the tuple in the columns of this relation.
fn keep_at(
    relations: &mut Vec<Columns>,
    alloc: Global,
    relation: usize,
    tuple: &Tuple,
) -> Result<(), Memory>
    ensures ok { OnOk result (AddsAll (fact_of tuple.now)
        (columns_of relations.old.items relation) (columns_of relations.new.items relation)) }
    ensures err { OnErr result
        (AddsAtMost (fact_of tuple.now) (columns_of relations.old.items relation)
        (columns_of relations.new.items relation)) }
    ensures others { (r : ℕ) → (r ≡ relation → ⊥) → columns_of relations.new.items r ≡
        columns_of relations.old.items r }
{
    reach(relations, alloc, relation)?;
    index(&mut relations[relation], alloc, tuple)
}

// Makes the relations up to this one, if they do not exist yet.
fn reach(relations: &mut Vec<Columns>, alloc: Global, relation: usize) -> Result<(), Memory>
    ensures same { (r : ℕ) → columns_of relations.new.items r ≡ columns_of relations.old.items r }
    ensures there { OnOk result (relation < length relations.new.items) }
{
    while relations.len() <= relation {
        relations.push(Vec::new(alloc))?;
    }
    Ok(())
}

// Takes the tuple out of the columns of this relation.
fn drop_at(relations: &mut Vec<Columns>, relation: usize, tuple: &Tuple)
    ensures dropped { DropsAll (fact_of tuple.now) (columns_of relations.old.items relation)
        (columns_of relations.new.items relation) }
    ensures others { (r : ℕ) → (r ≡ relation → ⊥) → columns_of relations.new.items r ≡
        columns_of relations.old.items r }
{
    match relations.get_mut(relation) {
        Some(columns) => sweep(columns, tuple),
        None => {}
    }
}

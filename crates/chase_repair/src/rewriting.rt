//! The rewriting of tuples by a substitution, as writes.
ghost use Rattle.std.specs.Prelude.{◌≡◌, ◌++◌, map, IfOk, OnOk};
ghost use Rattle.def_chase.specs.Repository.{Insert, Delete};
ghost use Rattle.def_chase.specs.Values.{under};
ghost use Rattle.base_types.specs.Contents.{changes_of, facts_of};
ghost use Rattle.base_types.specs.Meanings.{fact_of};
ghost use Rattle.base_types.specs.Maps.{images_of, moved_by};
ghost use Rattle.def_steps.specs.Rewriting.{in_order as in_order_def, rewrite as rewrite_def};

use crate::ordering::put;
use base_types::{List, Memory, Sub, TryCopy, Tuple, TupleList, Write, WriteList};
use chase_unifier::apply;
use std::alloc::Global;
use std::collections::BTreeSet;

/// The writes that rewrite the tuples by a substitution: a deletion of each, then an insertion of each distinct substituted
/// tuple, in order.
pub fn rewrite(alloc: Global, sub: &Sub, tuples: &TupleList) -> Result<WriteList, Memory>
    ensures value { IfOk result (λ writes.
        changes_of writes ≡ rewrite_def (moved_by (images_of sub.now)) (facts_of tuples.now)) }
{
    let moved = moved_in_order(alloc, sub, tuples.as_slice())?;
    let mut writes = deletions(alloc, tuples.copy(alloc)?)?;
    insert_all(&mut writes, moved)?;
    Ok(writes)
}

/// The deletions of the tuples, in turn.
pub(crate) fn deletions(alloc: Global, tuples: TupleList) -> Result<WriteList, Memory>
    ensures value { IfOk result (λ writes. changes_of writes ≡ map Delete (facts_of tuples)) }
{
    let mut writes = List::new(alloc);
    writes.reserve(tuples.len())?;
    for tuple in tuples.into_vec() {
        writes.push(Write::Delete(tuple))?;
    }
    Ok(writes)
}

// The set of the substituted tuples.
fn moved_in_order(alloc: Global, sub: &Sub, tuples: &[Tuple]) -> Result<BTreeSet<Tuple>, Memory>
    ensures value { IfOk result (λ set.
        map fact_of set.keys ≡
        in_order_def (map (under (moved_by (images_of sub.now))) (map fact_of tuples.now))) }
{
    let mut set = BTreeSet::new(alloc);
    for tuple in tuples {
        put(&mut set, apply(alloc, sub, tuple)?)?;
    }
    Ok(set)
}

// Adds the insertions of the tuples of the set, in order.
fn insert_all(writes: &mut WriteList, set: BTreeSet<Tuple>) -> Result<(), Memory>
    ensures ok { OnOk result (
        changes_of writes.new ≡ changes_of writes.old ++ map Insert (map fact_of set.keys)) }
{
    let mut left = set;
    while let Some(tuple) = left.pop_first() {
        writes.push(Write::Insert(tuple))?;
    }
    Ok(())
}

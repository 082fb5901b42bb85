//! Lists in order, by way of ordered sets.
ghost use Rattle.std.specs.Prelude.{◌≡◌, [], ◌∷◌, map, IfOk, OnOk};
ghost use Rattle.def_chase.specs.Repository.{apply, Insert};
ghost use Rattle.base_types.specs.Meanings.{fact_of};
ghost use Rattle.def_steps.specs.Rewriting.{in_order as in_order_def};

use base_types::{List, Memory, TryCopy, Tuple, TupleList};
use std::alloc::Global;
use std::collections::BTreeSet;

/// The tuples in order, each once.
pub fn in_order(alloc: Global, tuples: &TupleList) -> Result<TupleList, Memory>
    ensures value { IfOk result (λ list. map fact_of list.items ≡
        in_order_def (map fact_of tuples.now.items)) }
{
    let mut set = BTreeSet::new(alloc);
    put_copies(alloc, &mut set, tuples.as_slice())?;
    listed(alloc, set)
}

/// Puts a tuple into the set.
pub(crate) fn put(set: &mut BTreeSet<Tuple>, tuple: Tuple) -> Result<(), Memory>
    ensures ok { OnOk result (map fact_of set.new.keys ≡
        apply (map fact_of set.old.keys) (Insert (fact_of tuple) ∷ [])) }
{
    match set.insert(tuple) {
        Ok(_added) => Ok(()),
        Err(_refused) => Err(Memory),
    }
}

/// Puts copies of the tuples into the set.
pub(crate) fn put_copies(
    alloc: Global,
    set: &mut BTreeSet<Tuple>,
    tuples: &[Tuple],
) -> Result<(), Memory>
    ensures ok { OnOk result (map fact_of set.new.keys ≡
        apply (map fact_of set.old.keys) (map Insert (map fact_of tuples.now))) }
{
    for tuple in tuples {
        put(set, tuple.copy(alloc)?)?;
    }
    Ok(())
}

/// The items of the set in order.
pub(crate) fn listed<T: Ord + Drop>(alloc: Global, set: BTreeSet<T>) -> Result<List<T>, Memory>
    ensures items { IfOk result (λ list. list.items ≡ set.keys) }
{
    let mut left = set;
    let mut list = List::new(alloc);
    list.reserve(left.len())?;
    while let Some(item) = left.pop_first() {
        list.push(item)?;
    }
    Ok(list)
}

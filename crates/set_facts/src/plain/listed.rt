//! The set of the tuples of a list, and the tuples of a set as a list.
ghost use Rattle.std.specs.Prelude.{◌≡◌, map, IfOk};
ghost use Rattle.def_chase.specs.Values.{Fact};
ghost use Rattle.def_chase.specs.Repository.{has, IsRepository};
ghost use Rattle.base_types.specs.Meanings.{fact_of};

use super::PlainFacts;
use base_types::{List, Memory, TryCopy, Tuple, TupleList};
use std::alloc::Global;
use std::collections::BTreeSet;
use std::collections::btree_set::Iter;

impl PlainFacts {
    /// The set of the tuples of a list, in whatever order and however often each stands there.
    pub fn of_list(alloc: Global, tuples: &TupleList) -> Result<PlainFacts, Memory>
        ensures members { IfOk result
            (λ facts. (t : Fact) → has facts t ≡ has (map fact_of tuples.now.items) t) }
        ensures same { IfOk result
            (λ facts. IsRepository (map fact_of tuples.now.items) → facts ≡
            map fact_of tuples.now.items) }
    {
        PlainFacts::of_owned(alloc, tuples.copy(alloc)?)
    }

    /// The set of the tuples of a list; it takes the list over.
    pub(crate) fn of_owned(alloc: Global, tuples: TupleList) -> Result<PlainFacts, Memory>
        ensures members { IfOk result
            (λ facts. (t : Fact) → has facts t ≡ has (map fact_of tuples.items) t) }
        ensures in_order { IfOk result IsRepository }
    {
        match BTreeSet::from_iter(alloc, tuples.into_vec()) {
            Ok(tuples) => Ok(PlainFacts { tuples, alloc }),
            Err(_) => Err(Memory),
        }
    }

    /// The tuples in order.
    pub fn list(&self, alloc: Global) -> Result<TupleList, Memory>
        ensures tuples { IfOk result (λ list. map fact_of list.items ≡ self.now) }
        ensures in_order { IsRepository self.now }
    {
        let mut list = List::new(alloc);
        list.reserve(self.tuples.len())?;
        for tuple in self.tuples.iter() {
            list.push(tuple.copy(alloc)?)?;
        }
        Ok(list)
    }

    /// Goes over the tuples in order.
    pub(crate) fn iter(&self) -> Iter<'_, Tuple>
        ensures tuples { map fact_of result ≡ self.now }
        ensures in_order { IsRepository self.now }
    {
        self.tuples.iter()
    }

    /// The tuples in order, taken out of the set.
    pub fn into_list(self, alloc: Global) -> Result<TupleList, Memory>
        ensures tuples { IfOk result (λ list. map fact_of list.items ≡ self) }
    {
        let PlainFacts { tuples, .. } = self;
        let mut list = List::new(alloc);
        list.reserve(tuples.len())?;
        for tuple in tuples {
            list.push(tuple)?;
        }
        Ok(list)
    }
}

//! An ordered set of tuples.
ghost use Rattle.std.specs.Option.{option_map, option_copied};
ghost use Rattle.std.specs.Prelude.{◌≡◌, [], not, length, find, None, IsTrue, IfOk, OnOk, OnErr, IfErr};
ghost use Rattle.def_chase.specs.Repository.{has, change, Insert, Delete, IsRepository};
ghost use Rattle.def_chase.specs.Cursors.{first_of};
ghost use Rattle.base_types.specs.Meanings.{fact_of};
ghost use Rattle.set_facts.specs.Courses.{is_ahead};

use crate::scanned::{is_scanned, of_relation};
use base_types::{Facts, Memory, OuterName, TryCopy, Tuple, Value};
use std::alloc::Global;
use std::cmp::Ordering;
use std::collections::BTreeSet;
use std::marker::Model;
use std::ops::Bound;

mod listed;
mod ranges;

/// A set of tuples in a balanced tree: insertions, deletions and cursors take steps logarithmic in its size. Only a scan by
/// column goes over the whole relation. Contracts see the list of its tuples, in order.
#[derive(Debug, Drop)]
pub struct PlainFacts {
    tuples: BTreeSet<Tuple>,
    alloc: Global,
}

impl Model for PlainFacts {
    ghost use Rattle.std.specs.Prelude.{List, map};
    ghost use Rattle.def_chase.specs.Values.{Fact};

    ghost Value = { List Fact };

    ghost use Rattle.def_chase.specs.Repository.{IsRepository};
    ghost use Rattle.base_types.specs.Meanings.{fact_of};

    ghost view = { λ f. map fact_of f.tuples.keys };

    ghost invariant = { λ f. IsRepository (map fact_of f.tuples.keys) };
}

impl PlainFacts {
    /// The empty set.
    pub fn new(alloc: Global) -> PlainFacts
        ensures empty { result ≡ [] }
    {
        PlainFacts {
            tuples: BTreeSet::new(alloc),
            alloc,
        }
    }

    /// The number of tuples.
    pub fn len(&self) -> usize
        ensures length { result ≡ length self.now }
    {
        self.tuples.len()
    }

    /// Inserts a tuple, and returns whether it is new. If it is refused, it hands the tuple back, and the set is unchanged.
    pub fn insert(&mut self, tuple: Tuple) -> Result<bool, (Tuple, Memory)>
        ensures changed { IfOk result (λ changed. changed ≡ not (has self.old (fact_of tuple))) }
        ensures ok { OnOk result (self.new ≡ change self.old (Insert (fact_of tuple))) }
        ensures given_back { IfErr result (λ refused. refused.0 ≡ tuple) }
        ensures err { OnErr result (self.new ≡ self.old) }
        ensures in_order { IsRepository self.new }
    {
        match self.tuples.insert(tuple) {
            Ok(added) => return Ok(added),
            Err(refused) => return Err((refused.value, Memory)),
        }
    }

    /// Removes a tuple, and returns whether it was there.
    pub fn remove(&mut self, tuple: &Tuple) -> bool
        ensures changed { result ≡ has self.old (fact_of tuple.now) }
        ensures after { self.new ≡ change self.old (Delete (fact_of tuple.now)) }
        ensures in_order { IsRepository self.new }
    {
        self.tuples.remove(tuple)
    }

    // Whether the set ends before the relation: it is empty, or its last tuple is of a lesser relation.
    fn ends_before(&self, relation: u16) -> bool
        ensures none { IsTrue result → first_of self.now relation ≡ None }
        ensures in_order { IsRepository self.now }
    {
        match self.tuples.last() {
            Some(last) => last.relation < relation,
            None => true,
        }
    }

    /// The least tuple of the relation that is above `past`, if that is given; None exactly if there is none.
    pub(crate) fn next(&self, relation: u16, past: Option<&Tuple>) -> Option<&Tuple>
        ensures found { option_map fact_of (option_copied result) ≡
            find (is_ahead relation (option_map fact_of (option_copied past.entry))) self.now }
        ensures in_order { IsRepository self.now }
    {
        // The set promises that it is in order.
        let _ = &self.tuples;
        match past {
            Some(before) => match before.relation.cmp(&relation) {
                Ordering::Less => self.first(relation),
                Ordering::Equal => self.after(before),
                Ordering::Greater => None,
            },
            None => self.first(relation),
        }
    }
}

impl TryCopy for PlainFacts {
    ghost use Rattle.std.specs.Prelude.{List};
    ghost use Rattle.def_chase.specs.Values.{Fact};

    ghost Meaning = { List Fact };

    ghost meaning = { λ D. D };

    fn copy(&self, alloc: Global) -> Result<PlainFacts, Memory>
        ensures same { IfOk result (λ copy. copy ≡ self.now) }
    {
        PlainFacts::of_owned(alloc, self.list(alloc)?)
    }
}

impl Facts for PlainFacts {
    ghost tuples = { λ D. D };

    fn is_in_order(&self) {
        let _ = &self.tuples;
    }

    fn contains(&self, tuple: &Tuple) -> bool {
        self.tuples.contains(tuple)
    }

    fn beyond(&self, past: Option<&Tuple>) -> Option<&Tuple> {
        match past {
            Some(tuple) => self
                .tuples
                .range((Bound::Excluded(tuple), Bound::Unbounded))
                .next(),
            None => self.tuples.iter().next(),
        }
    }

    fn first(&self, relation: u16) -> Option<&Tuple> {
        if self.ends_before(relation) {
            return None;
        }
        let least = Tuple::least(relation);
        let found = self
            .tuples
            .range((Bound::Included(&least), Bound::Unbounded))
            .next();
        of_relation(found, relation)
    }

    fn after(&self, tuple: &Tuple) -> Option<&Tuple> {
        of_relation(self.beyond(Some(tuple)), tuple.relation)
    }

    fn scan(
        &self,
        relation: u16,
        column: u16,
        value: &Value,
        past: Option<&Tuple>,
    ) -> Option<&Tuple> {
        let mut cursor = self.next(relation, past);
        while let Some(found) = cursor {
            if is_scanned(found, relation, column, value, past) {
                return Some(found);
            }
            cursor = self.after(found);
        }
        None
    }

    fn holding(&self, name: OuterName, past: Option<&Tuple>) -> Option<&Tuple> {
        let mut cursor = self.beyond(past);
        while let Some(found) = cursor {
            if found.holds_null(name) {
                return Some(found);
            }
            cursor = self.beyond(Some(found));
        }
        None
    }
}

//! A set of tuples in a list.
ghost use Rattle.std.specs.Option.{option_map, option_copied};
ghost use Rattle.std.specs.List.{list_any, remove};
ghost use Rattle.std.specs.Prelude.{◌≡◌, ◌<◌, ◌≤◌, [], false, not, length, map, filter, find, Some, IsTrue, IfOk, OnOk, OnErr, IfErr};
ghost use Rattle.def_chase.specs.Cursors.{is_beyond as is_beyond_tuple, is_of, first_of, next_of, scan_of};
ghost use Rattle.def_chase.specs.Repository.{has, change, Insert, Delete, IsRepository};
ghost use Rattle.base_types.specs.Candidates.{column_of, is_candidate as is_candidate_tuple};
ghost use Rattle.base_types.specs.Meanings.{fact_of, datum_of};
ghost use Rattle.set_facts.specs.Courses.{is_ahead};
ghost use Rattle.set_facts.specs.Places.{IsBetween, HasAllThat, is_from};
ghost use Rattle.set_facts.specs.Rising.{IsAfter};

use crate::plain::PlainFacts;
use crate::scanned::{is_beyond, is_candidate, is_scanned, of_relation};
use base_types::{Column, List, Memory, TryCopy, Tuple, TupleList, Value};
use std::alloc::Global;
use std::cmp::Ordering;
use std::marker::Model;

// Moving this number of tuples costs no more than searching a tree for the place of one.
const NEAR: usize = 1024;

// Up to this number of tuples, going over all is as fast as a search by halves.
const SHORT: usize = 16;

/// A set of tuples in a list, in order. Searches are by halves, and an insertion or a removal moves the tuples after its place.
/// The first tuple takes memory for one tuple only. Contracts see the list of its tuples, in order.
#[derive(Debug, Drop)]
pub(crate) struct ListedFacts {
    tuples: Vec<Tuple>,
}

/// The tuples of a set as a list or as a tree.
#[derive(Debug, Drop)]
pub(crate) enum Held {
    Listed(ListedFacts),
    Tree(PlainFacts),
}

impl Model for ListedFacts {
    ghost use Rattle.std.specs.Prelude.{List, map};
    ghost use Rattle.def_chase.specs.Values.{Fact};

    ghost Value = { List Fact };

    ghost use Rattle.def_chase.specs.Repository.{IsRepository};
    ghost use Rattle.base_types.specs.Meanings.{fact_of};

    ghost view = { λ f. map fact_of f.tuples.items };

    ghost invariant = { λ f. IsRepository (map fact_of f.tuples.items) };
}

impl ListedFacts {
    /// The empty set.
    pub(crate) fn new(alloc: Global) -> ListedFacts
        ensures empty { result ≡ [] }
    {
        ListedFacts {
            tuples: Vec::new(alloc),
        }
    }

    /// The number of tuples.
    pub(crate) fn len(&self) -> usize
        ensures length { result ≡ length self.now }
    {
        self.tuples.len()
    }

    /// All its tuples above the given one, or all if none is given, in order.
    pub(crate) fn all_beyond(&self, past: Option<&Tuple>) -> &[Tuple]
        ensures tuples { map fact_of result.now ≡
            filter (is_beyond_tuple (option_map fact_of (option_copied past.entry))) self.now }
        ensures in_order { IsRepository self.now }
    {
        let tuples = self.tuples.as_slice();
        match past {
            Some(before) => above(tuples, before),
            None => tuples,
        }
    }

    /// Its tuples in order, possibly without some that are of a lesser relation or, if `past` is given, not above it.
    pub(crate) fn ahead(&self, relation: u16, past: Option<&Tuple>) -> &[Tuple]
        ensures all { HasAllThat (is_ahead relation (option_map fact_of (option_copied past.entry)))
            self.now (map fact_of result.now) }
        ensures in_order { IsRepository (map fact_of result.now) }
    {
        ahead(self.tuples.as_slice(), relation, past)
    }

    /// The tuples as a list.
    pub(crate) fn list(&self, alloc: Global) -> Result<TupleList, Memory>
        ensures tuples { IfOk result (λ list. map fact_of list.items ≡ self.now) }
        ensures in_order { IsRepository self.now }
    {
        let mut list = List::new(alloc);
        list.reserve(self.tuples.len())?;
        for tuple in self.tuples.iter() {
            list.push(tuple.copy(alloc)?)?;
        }
        Ok(list)
    }

    /// The tuples as a list, taken out of the set.
    pub(crate) fn into_list(self) -> TupleList
        ensures tuples { map fact_of result.items ≡ self }
    {
        let ListedFacts { tuples } = self;
        List::from_vec(tuples)
    }

    /// The set as a tree.
    pub(crate) fn tree(&self, alloc: Global) -> Result<PlainFacts, Memory>
        ensures same { IfOk result (λ facts. facts ≡ self.now) }
    {
        PlainFacts::of_owned(alloc, self.list(alloc)?)
    }

    /// Whether the tuple belongs near the end, so that its insertion moves few tuples.
    pub(crate) fn ends_near(&self, tuple: &Tuple) -> bool {
        match self.tuples.len().checked_sub(NEAR) {
            Some(place) => self.tuples[place].cmp(tuple).is_lt(),
            None => true,
        }
    }

    /// Inserts a tuple, and returns whether it is new. If it is refused, it hands the tuple back, and the set is unchanged.
    pub(crate) fn insert(&mut self, tuple: Tuple) -> Result<bool, (Tuple, Memory)>
        ensures changed { IfOk result (λ changed. changed ≡ not (has self.old (fact_of tuple))) }
        ensures ok { OnOk result (self.new ≡ change self.old (Insert (fact_of tuple))) }
        ensures given_back { IfErr result (λ refused. refused.0 ≡ tuple) }
        ensures err { OnErr result (self.new ≡ self.old) }
        ensures in_order { IsRepository self.new }
    {
        if comes_after(&self.tuples, &tuple) {
            return add(&mut self.tuples, tuple);
        }
        match self.tuples.binary_search(&tuple) {
            Ok(_) => Ok(false),
            Err(place) => put_at(&mut self.tuples, place, tuple),
        }
    }

    /// Removes a tuple, and returns whether it was there.
    pub(crate) fn remove(&mut self, tuple: &Tuple) -> bool
        ensures changed { result ≡ has self.old (fact_of tuple.now) }
        ensures after { self.new ≡ change self.old (Delete (fact_of tuple.now)) }
        ensures in_order { IsRepository self.new }
    {
        match self.tuples.binary_search(tuple) {
            Ok(place) => {
                take_at(&mut self.tuples, place);
                true
            }
            Err(_) => false,
        }
    }

    /// Whether the tuple is there.
    pub(crate) fn contains(&self, tuple: &Tuple) -> bool
        ensures answer { result ≡ has self.now (fact_of tuple.now) }
        ensures in_order { IsRepository self.now }
    {
        self.tuples.binary_search(tuple).is_ok()
    }
}

// If there are many tuples, a search begins at a place that it finds by halves.
impl ListedFacts {
    /// The least tuple above the given one, or of all if none is given; None exactly if there is none.
    pub(crate) fn beyond(&self, past: Option<&Tuple>) -> Option<&Tuple>
        ensures found { option_map fact_of (option_copied result) ≡
            find (is_beyond_tuple (option_map fact_of (option_copied past.entry))) self.now }
        ensures in_order { IsRepository self.now }
    {
        for tuple in beginning(self.tuples.as_slice(), past) {
            if is_beyond(past, tuple) {
                return Some(tuple);
            }
        }
        None
    }

    /// The least tuple of the relation; None exactly if it has none.
    pub(crate) fn first(&self, relation: u16) -> Option<&Tuple>
        ensures found { option_map fact_of (option_copied result) ≡ first_of self.now relation }
        ensures in_order { IsRepository self.now }
    {
        for tuple in ahead(self.tuples.as_slice(), relation, None) {
            if tuple.relation > relation {
                return None;
            }
            if tuple.relation == relation {
                return Some(tuple);
            }
        }
        None
    }

    /// Whether it has no tuple of the relation with the column's value, if a column is given.
    pub(crate) fn lacks(&self, relation: u16, column: Option<Column<'_>>) -> bool
        ensures none { IsTrue result →
            list_any (is_candidate_tuple relation (option_map column_of column.entry)) self.now
            ≡ false }
    {
        if self.tuples.is_empty() {
            return true;
        }
        for tuple in ahead(self.tuples.as_slice(), relation, None) {
            if tuple.relation > relation {
                return true;
            }
            if is_candidate(tuple, relation, column) {
                return false;
            }
        }
        true
    }

    /// Whether all its tuples are of greater relations, or all of lesser ones.
    pub(crate) fn is_beside(&self, relation: u16) -> bool
        ensures none { IsTrue result → list_any (is_of relation) self.now ≡ false }
    {
        match (self.tuples.first(), self.tuples.last()) {
            (Some(first), Some(last)) => relation < first.relation || last.relation < relation,
            _ => true,
        }
    }

    /// The least tuple of the same relation above the given one; None exactly if there is none.
    pub(crate) fn after(&self, tuple: &Tuple) -> Option<&Tuple>
        ensures found { option_map fact_of (option_copied result) ≡
            next_of self.now (fact_of tuple.now) }
        ensures in_order { IsRepository self.now }
    {
        of_relation(self.beyond(Some(tuple)), tuple.relation)
    }

    /// The least tuple of the relation that has the value in the column and is above `past`, if that is given; None exactly if
    /// there is none.
    pub(crate) fn scan(
        &self,
        relation: u16,
        column: u16,
        value: &Value,
        past: Option<&Tuple>,
    ) -> Option<&Tuple>
        ensures found { option_map fact_of (option_copied result) ≡
            scan_of self.now relation column (datum_of value.now)
            (option_map fact_of (option_copied past.entry)) }
        ensures in_order { IsRepository self.now }
    {
        for tuple in ahead(self.tuples.as_slice(), relation, past) {
            if tuple.relation > relation {
                return None;
            }
            if is_scanned(tuple, relation, column, value, past) {
                return Some(tuple);
            }
        }
        None
    }
}

// The tuples, possibly without some that are not above the given one, if one is given.
fn beginning<'a>(tuples: &'a [Tuple], past: Option<&Tuple>) -> &'a [Tuple]
    requires in_order { IsRepository (map fact_of tuples.now) }
    ensures all { HasAllThat (is_beyond_tuple (option_map fact_of (option_copied past.entry)))
        (map fact_of tuples.now) (map fact_of result.now) }
{
    if tuples.len() <= SHORT {
        return tuples;
    }
    match past {
        Some(before) => from(tuples, before),
        None => tuples,
    }
}

// The tuples, possibly without some that are of a lesser relation or, if `past` is given, not above it.
fn ahead<'a>(tuples: &'a [Tuple], relation: u16, past: Option<&Tuple>) -> &'a [Tuple]
    requires in_order { IsRepository (map fact_of tuples.now) }
    ensures all { HasAllThat (is_ahead relation (option_map fact_of (option_copied past.entry)))
        (map fact_of tuples.now) (map fact_of result.now) }
    ensures in_order { IsRepository (map fact_of result.now) }
{
    if tuples.len() <= SHORT {
        return tuples;
    }
    match past {
        Some(before) => from(tuples, before),
        None => {
            let least = Tuple::least(relation);
            from(tuples, &least)
        }
    }
}

// The tuples that are not below the given one.
fn from<'a>(tuples: &'a [Tuple], tuple: &Tuple) -> &'a [Tuple]
    requires in_order { IsRepository (map fact_of tuples.now) }
    ensures rest { map fact_of result.now ≡
        filter (is_from (fact_of tuple.now)) (map fact_of tuples.now) }
{
    match tuples.binary_search(tuple) {
        Ok(place) => &tuples[place..],
        Err(place) => &tuples[place..],
    }
}

// The tuples that are above the given one.
fn above<'a>(tuples: &'a [Tuple], tuple: &Tuple) -> &'a [Tuple]
    requires in_order { IsRepository (map fact_of tuples.now) }
    ensures rest { map fact_of result.now ≡
        filter (is_beyond_tuple (Some (fact_of tuple.now))) (map fact_of tuples.now) }
{
    match tuples.binary_search(tuple) {
        Ok(place) => &tuples[place + 1..],
        Err(place) => &tuples[place..],
    }
}

// Whether the tuple comes after the last one of the list.
fn comes_after(tuples: &Vec<Tuple>, tuple: &Tuple) -> bool
    requires { IsRepository (map fact_of tuples.now.items) }
    ensures after { IsTrue result → IsAfter (fact_of tuple.now) (map fact_of tuples.now.items) }
{
    match tuples.last() {
        Some(last) => match last.cmp(tuple) {
            Ordering::Less => true,
            Ordering::Equal => false,
            Ordering::Greater => false,
        },
        None => true,
    }
}

// Adds a tuple that comes after all others. The first one takes memory for one tuple only.
fn add(tuples: &mut Vec<Tuple>, tuple: Tuple) -> Result<bool, (Tuple, Memory)>
    requires after { IsAfter (fact_of tuple) (map fact_of tuples.old.items) }
    requires in_order { IsRepository (map fact_of tuples.old.items) }
    ensures changed { IfOk result
        (λ changed. changed ≡ not (has (map fact_of tuples.old.items) (fact_of tuple))) }
    ensures ok { OnOk result (map fact_of tuples.new.items ≡
        change (map fact_of tuples.old.items) (Insert (fact_of tuple))) }
    ensures in_order { IsRepository (map fact_of tuples.new.items) }
    ensures given_back { IfErr result (λ refused. refused.0 ≡ tuple) }
    ensures err { OnErr result (tuples.new.items ≡ tuples.old.items) }
{
    if tuples.is_empty() {
        match tuples.reserve_exact(1) {
            Ok(()) => {}
            Err(_) => return Err((tuple, Memory)),
        }
    }
    match tuples.push(tuple) {
        Ok(()) => Ok(true),
        Err(refused) => Err((refused.value, Memory)),
    }
}

// Puts a tuple that is not there at its place.
fn put_at(tuples: &mut Vec<Tuple>, place: usize, tuple: Tuple) -> Result<bool, (Tuple, Memory)>
    requires place { place ≤ length tuples.old.items }
    requires between { IsBetween tuples.old.items tuple place }
    requires in_order { IsRepository (map fact_of tuples.old.items) }
    ensures changed { IfOk result
        (λ changed. changed ≡ not (has (map fact_of tuples.old.items) (fact_of tuple))) }
    ensures ok { OnOk result (map fact_of tuples.new.items ≡
        change (map fact_of tuples.old.items) (Insert (fact_of tuple))) }
    ensures in_order { IsRepository (map fact_of tuples.new.items) }
    ensures given_back { IfErr result (λ refused. refused.0 ≡ tuple) }
    ensures err { OnErr result (tuples.new.items ≡ tuples.old.items) }
{
    match tuples.insert(place, tuple) {
        Ok(()) => Ok(true),
        Err(refused) => Err((refused.value, Memory)),
    }
}

// Takes out the tuple at the place.
fn take_at(tuples: &mut Vec<Tuple>, place: usize)
    requires { place < length tuples.old.items }
    ensures items { tuples.new.items ≡ remove tuples.old.items place }
{
    tuples.remove(place);
}

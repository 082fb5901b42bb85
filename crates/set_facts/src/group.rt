//! Sets that mostly have few tuples.
ghost use Rattle.std.specs.List.{list_any};
ghost use Rattle.std.specs.Option.{option_map, option_copied};
ghost use Rattle.std.specs.Prelude.{◌≡◌, [], false, not, length, filter, IsTrue, IfOk, OnOk, OnErr, IfErr, IfNone, IfSome};
ghost use Rattle.def_chase.specs.Cursors.{is_beyond, is_of};
ghost use Rattle.def_chase.specs.Repository.{has, change, Insert, Delete, IsRepository};
ghost use Rattle.base_types.specs.Candidates.{column_of, further_candidates, is_candidate, AreAll, AreFirst};
ghost use Rattle.base_types.specs.Meanings.{fact_of};
ghost use Rattle.set_facts.specs.Courses.{is_ahead};
ghost use Rattle.set_facts.specs.Places.{HasAllThat};
ghost use Rattle.set_facts.specs.Runs.{run_of};

use crate::course::Hides;
use crate::listed::{Held, ListedFacts};
use crate::plain::PlainFacts;
use crate::runs::Run;
use base_tree::Few;
use base_types::{Candidates, Column, Facts, Memory, OuterName, Tuple, Value};
use std::alloc::Global;
use std::marker::Model;

// Up to this number of tuples, moving them in a list costs less than searching a tree for the place of one.
const FEW: usize = 256;

/// A set of tuples that is mostly small, such as the tuples that a column keeps at a value or that an update has written. A small
/// set is a list; with the first insertion into a larger one it becomes a balanced tree. Contracts see the list of its tuples, in
/// order.
#[derive(Debug, Drop)]
pub struct Group {
    held: Held,
    alloc: Global,
}

impl Model for Group {
    ghost use Rattle.std.specs.Prelude.{List};
    ghost use Rattle.def_chase.specs.Values.{Fact};

    ghost Value = { List Fact };

    ghost use Rattle.def_chase.specs.Repository.{IsRepository};
    ghost use Rattle.set_facts.specs.Rising.{tuples_held};

    ghost view = { λ g. tuples_held g.held };

    ghost invariant = { λ g. IsRepository (tuples_held g.held) };
}

impl Group {
    /// The empty set.
    pub fn new(alloc: Global) -> Group
        ensures empty { result ≡ [] }
    {
        Group {
            held: Held::Listed(ListedFacts::new(alloc)),
            alloc,
        }
    }

    /// The number of tuples.
    pub fn len(&self) -> usize
        ensures length { result ≡ length self.now }
    {
        match &self.held {
            Held::Listed(tuples) => tuples.len(),
            Held::Tree(facts) => facts.len(),
        }
    }

    /// Inserts a tuple, and returns whether it is new. If it is refused, it hands the tuple back, and the set is unchanged.
    pub fn insert(&mut self, tuple: Tuple) -> Result<bool, (Tuple, Memory)>
        ensures changed { IfOk result (λ changed. changed ≡ not (has self.old (fact_of tuple))) }
        ensures ok { OnOk result (self.new ≡ change self.old (Insert (fact_of tuple))) }
        ensures given_back { IfErr result (λ refused. refused.0 ≡ tuple) }
        ensures err { OnErr result (self.new ≡ self.old) }
    {
        match &mut self.held {
            Held::Tree(facts) => facts.insert(tuple),
            Held::Listed(tuples) => {
                if tuples.len() < FEW {
                    return tuples.insert(tuple);
                }
                let Ok(facts) = tuples.tree(self.alloc) else {
                    return Err((tuple, Memory));
                };
                self.insert_into(facts, tuple)
            }
        }
    }

    // Puts a tuple into the set, which is a tree from now on.
    fn insert_into(&mut self, facts: PlainFacts, tuple: Tuple) -> Result<bool, (Tuple, Memory)>
        requires same { facts ≡ self.old }
        ensures changed { IfOk result (λ changed. changed ≡ not (has self.old (fact_of tuple))) }
        ensures ok { OnOk result (self.new ≡ change self.old (Insert (fact_of tuple))) }
        ensures given_back { IfErr result (λ refused. refused.0 ≡ tuple) }
        ensures err { OnErr result (self.new ≡ self.old) }
    {
        let mut facts = facts;
        let added = facts.insert(tuple)?;
        self.held = Held::Tree(facts);
        Ok(added)
    }

    /// Removes a tuple, and returns whether it was there.
    pub fn remove(&mut self, tuple: &Tuple) -> bool
        ensures changed { result ≡ has self.old (fact_of tuple.now) }
        ensures after { self.new ≡ change self.old (Delete (fact_of tuple.now)) }
    {
        match &mut self.held {
            Held::Listed(tuples) => tuples.remove(tuple),
            Held::Tree(facts) => facts.remove(tuple),
        }
    }

    /// A quick test: true only if the set has no tuple of the relation with the column's value, if a column is given. A list is
    /// searched; of a tree only the first and the last tuple are looked at.
    pub(crate) fn lacks(&self, relation: u16, column: Option<Column<'_>>) -> bool
        ensures none { IsTrue result →
            list_any (is_candidate relation (option_map column_of column.entry)) self.now ≡ false }
    {
        match &self.held {
            Held::Listed(tuples) => tuples.lacks(relation, column),
            Held::Tree(facts) => facts.lacks(relation),
        }
    }

    /// Whether all its tuples are of greater relations, or all of lesser ones, judged by the first and the last tuple.
    pub(crate) fn is_beside(&self, relation: u16) -> bool
        ensures none { IsTrue result → list_any (is_of relation) self.now ≡ false }
    {
        match &self.held {
            Held::Listed(tuples) => tuples.is_beside(relation),
            Held::Tree(facts) => facts.lacks(relation),
        }
    }

    /// The first few of its tuples that are of the relation, have the column's value, if a column is given, and are above `past`,
    /// if that is given; None exactly if there is no such tuple.
    pub(crate) fn few(
        &self,
        relation: u16,
        column: Option<Column<'_>>,
        past: Option<&Tuple>,
    ) -> Option<Few<'_, Tuple>>
        ensures first { IfSome result (λ few. AreFirst few (further_candidates self.now relation
            (option_map column_of column.entry) (option_map fact_of (option_copied past.entry)))) }
        ensures none { IfNone result (further_candidates self.now relation
            (option_map column_of column.entry) (option_map fact_of (option_copied past.entry)) ≡
            []) }
        ensures in_order { IsRepository self.now }
    {
        self.ahead(relation, past).few(relation, column, past)
    }

    // Its tuples in order, possibly without some that are of a lesser relation or, if `past` is given, not above it.
    fn ahead(&self, relation: u16, past: Option<&Tuple>) -> Run<'_>
        ensures all { HasAllThat (is_ahead relation (option_map fact_of (option_copied past.entry)))
            self.now (run_of result) }
        ensures rest { IsRepository (run_of result) }
        ensures in_order { IsRepository self.now }
    {
        match &self.held {
            Held::Listed(tuples) => Run::Listed(tuples.ahead(relation, past)),
            Held::Tree(facts) => Run::Together(facts.ahead(relation, past)),
        }
    }

    /// All its tuples above the given one, or all if none is given, at hand.
    pub fn at_hand(&self, past: Option<&Tuple>) -> Candidates<'_>
        ensures all { AreAll result self.now
            (filter (is_beyond (option_map fact_of (option_copied past.entry))) self.now) }
        ensures in_order { IsRepository self.now }
    {
        match &self.held {
            Held::Listed(tuples) => Candidates::Listed(tuples.all_beyond(past)),
            Held::Tree(facts) => facts.at_hand(past),
        }
    }
}

impl Facts for Group {
    ghost tuples = { λ D. D };

    fn is_in_order(&self) {
        let _ = &self.held;
    }

    fn contains(&self, tuple: &Tuple) -> bool {
        match &self.held {
            Held::Listed(tuples) => tuples.contains(tuple),
            Held::Tree(facts) => facts.contains(tuple),
        }
    }

    fn beyond(&self, past: Option<&Tuple>) -> Option<&Tuple> {
        match &self.held {
            Held::Listed(tuples) => tuples.beyond(past),
            Held::Tree(facts) => facts.beyond(past),
        }
    }

    fn first(&self, relation: u16) -> Option<&Tuple> {
        match &self.held {
            Held::Listed(tuples) => tuples.first(relation),
            Held::Tree(facts) => facts.first(relation),
        }
    }

    fn after(&self, tuple: &Tuple) -> Option<&Tuple> {
        match &self.held {
            Held::Listed(tuples) => tuples.after(tuple),
            Held::Tree(facts) => facts.after(tuple),
        }
    }

    fn scan(
        &self,
        relation: u16,
        column: u16,
        value: &Value,
        past: Option<&Tuple>,
    ) -> Option<&Tuple> {
        match &self.held {
            Held::Listed(tuples) => tuples.scan(relation, column, value, past),
            Held::Tree(facts) => facts.scan(relation, column, value, past),
        }
    }

    fn holding(&self, name: OuterName, past: Option<&Tuple>) -> Option<&Tuple> {
        let mut cursor = self.beyond(past);
        while let Some(found) = cursor {
            if found.holds_null(name) {
                return Some(found);
            }
            cursor = self.beyond(Some(found));
        }
        None
    }
}

impl Hides for Group {
    ghost hidden = { λ D. D };

    fn hides(&self, tuple: &Tuple) -> bool {
        self.contains(tuple)
    }
}

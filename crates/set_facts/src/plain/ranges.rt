//! The tuples of a set as ranges of its tree.
ghost use Rattle.std.specs.List.{list_any};
ghost use Rattle.std.specs.Option.{option_map, option_copied};
ghost use Rattle.std.specs.Prelude.{◌≡◌, [], ◌+◌, false, true, map, filter, None, Some, IsTrue};
ghost use Rattle.def_chase.specs.Cursors.{is_of, is_past, is_beyond};
ghost use Rattle.def_chase.specs.Repository.{IsRepository};
ghost use Rattle.base_types.specs.Candidates.{all_candidates, AreAll, AreFurther};
ghost use Rattle.base_types.specs.Meanings.{fact_of};
ghost use Rattle.set_facts.specs.Courses.{is_ahead};
ghost use Rattle.set_facts.specs.Places.{is_inside, HasAllThat};

use super::PlainFacts;
use base_types::{Candidates, Tuple};
use std::collections::btree_set::Range;
use std::ops::Bound;

impl PlainFacts {
    /// All its tuples above the given one, or all if none is given, in order.
    pub(crate) fn range(&self, past: Option<&Tuple>) -> Range<'_, Tuple>
        ensures tuples { map fact_of result ≡
            filter (is_beyond (option_map fact_of (option_copied past.entry))) self.now }
        ensures in_order { IsRepository self.now }
    {
        match past {
            Some(tuple) => self
                .tuples
                .range((Bound::Excluded(tuple), Bound::Unbounded)),
            None => self.tuples.range(..),
        }
    }

    /// All its tuples above the given one, or all if none is given, at hand.
    pub(crate) fn at_hand(&self, past: Option<&Tuple>) -> Candidates<'_>
        ensures all { AreAll result self.now
            (filter (is_beyond (option_map fact_of (option_copied past.entry))) self.now) }
        ensures in_order { IsRepository self.now }
    {
        Candidates::Together(self.range(past))
    }

    /// Its tuples in order, possibly without some that are of a lesser relation or, if `past` is given, not above it.
    pub(crate) fn ahead(&self, relation: u16, past: Option<&Tuple>) -> Range<'_, Tuple>
        ensures all { HasAllThat (is_ahead relation (option_map fact_of (option_copied past.entry)))
            self.now (map fact_of result) }
        ensures in_order { IsRepository (map fact_of result) }
    {
        match past {
            Some(_) => self.range(past),
            None => {
                let first = Tuple::least(relation);
                self.tuples
                    .range((Bound::Included(&first), Bound::Unbounded))
            }
        }
    }

    /// All its tuples of the relation that are above `past`, if that is given. The answer can be `Apart`, since no tuple bounds
    /// the last possible relation, and since `past` may be of another relation.
    pub(crate) fn relation(&self, relation: u16, past: Option<&Tuple>) -> Candidates<'_>
        ensures all { AreFurther result self.now relation None (option_copied past.entry) }
    {
        let Some(next) = relation.checked_add(1) else {
            return Candidates::Apart;
        };
        match past {
            Some(tuple) => {
                if tuple.relation != relation {
                    return Candidates::Apart;
                }
                Candidates::Together(self.after_it(tuple, next))
            }
            None => Candidates::Together(self.between(relation, next)),
        }
    }

    // All its tuples of `relation`; `next` is the number after it.
    fn between(&self, relation: u16, next: u16) -> Range<'_, Tuple>
        requires next { next ≡ relation + 1 }
        ensures tuples { map fact_of result ≡ all_candidates self.now relation None }
        ensures in_order { IsRepository self.now }
    {
        let first = Tuple::least(relation);
        let end = Tuple::least(next);
        self.tuples
            .range((Bound::Included(&first), Bound::Excluded(&end)))
    }

    // All its tuples above `tuple` in the same relation; `next` is the number after that relation's.
    fn after_it(&self, tuple: &Tuple, next: u16) -> Range<'_, Tuple>
        requires next { next ≡ tuple.now.relation + 1 }
        ensures tuples { map fact_of result ≡ filter (is_past (fact_of tuple.now)) self.now }
        ensures in_order { IsRepository self.now }
    {
        let end = Tuple::least(next);
        self.tuples
            .range((Bound::Excluded(tuple), Bound::Excluded(&end)))
    }

    /// All its tuples that are above a tuple and below another one.
    pub(crate) fn inside(&self, past: &Tuple, end: &Tuple) -> Range<'_, Tuple>
        requires forward { is_beyond (Some (fact_of past.now)) (fact_of end.now) ≡ true }
        ensures tuples { map fact_of result ≡
            filter (is_inside (fact_of past.now) (fact_of end.now)) self.now }
        ensures in_order { IsRepository self.now }
    {
        self.tuples
            .range((Bound::Excluded(past), Bound::Excluded(end)))
    }

    /// A quick test: true only if the set begins after the relation or ends before it, so that it has no tuple of the relation.
    pub(crate) fn lacks(&self, relation: u16) -> bool
        ensures none { IsTrue result → list_any (is_of relation) self.now ≡ false }
    {
        if self.begins_after(relation) {
            return true;
        }
        self.ends_before(relation)
    }

    // Whether the set begins after the relation: it is empty, or its first tuple is of a greater relation.
    fn begins_after(&self, relation: u16) -> bool
        ensures none { IsTrue result → list_any (is_of relation) self.now ≡ false }
    {
        match self.tuples.first() {
            Some(first) => first.relation > relation,
            None => true,
        }
    }
}

//! The reads of an update: each merges the rest of the base with the tuples of the table that the update sees.
ghost use Rattle.std.specs.Prelude.{◌≡◌, [], None, Some, map, find, IfNone, IfSome, IsTrue};
ghost use Rattle.std.specs.Option.{option_map, option_copied};
ghost use Rattle.def_chase.specs.Cursors.{is_beyond, first_of, next_of, scan_of};
ghost use Rattle.def_chase.specs.Repository.{has, IsRepository};
ghost use Rattle.base_types.specs.Candidates.{column_of, further_candidates, is_holding, AreAllInColumn, AreFirst, AreFurther, Begin};
ghost use Rattle.base_types.specs.Meanings.{fact_of, datum_of};
ghost use Rattle.set_facts.specs.Runs.{ahead_of, left_of, merged, run_of};
ghost use Rattle.set_versions.specs.Marked.{put_first};
ghost use Rattle.set_versions.specs.Standing.{seen};

use crate::sweeps::Sweep;
use crate::taken::Taken;
use crate::versions::Versions;
use base_tree::Few;
use base_types::{Candidates, Column, Facts, Opening, OuterName, Tuple, Value};
use set_facts::{Course, Merging, Run, least, remaining};
use std::collections::btree_set::Range;

// To gather up to this number of tuples of the base together with the table's costs less than to find a range.
const FEW: usize = 3;

// Most calls also promise that the tuples that the update sees are in order. None can fail.
impl Versions {
    // A law: the tuples that the update sees are in order. The call does nothing else.
    pub(crate) fn is_in_order(&self, number: u32)
        ensures in_order { IsRepository (seen number self.now) }
    {
        let _ = self.base();
    }

    // Whether the update sees the tuple.
    pub(crate) fn contains(&self, number: u32, tuple: &Tuple) -> bool
        ensures answer { result ≡ has (seen number self.now) (fact_of tuple.now) }
        ensures in_order { IsRepository (seen number self.now) }
    {
        if self.has_left(tuple) {
            return true;
        }
        self.table().contains(number, tuple)
    }

    // The least tuple of any relation that the update sees above the given one, or of all if none is given.
    pub(crate) fn beyond(&self, number: u32, past: Option<&Tuple>) -> Option<&Tuple>
        ensures found { option_map fact_of (option_copied result)
            ≡ find (is_beyond (option_map fact_of (option_copied past.entry)))
            (seen number self.now) }
        ensures in_order { IsRepository (seen number self.now) }
    {
        let base = self.base();
        let below = base.beyond(past);
        let left = remaining(base, self.taken(), &Course::All, below);
        least(left, self.table().beyond(number, past))
    }

    // The least tuple above `past`, if that is given, that update `number` sees and that holds a null of the name.
    pub(crate) fn holding(
        &self,
        number: u32,
        name: OuterName,
        past: Option<&Tuple>,
    ) -> Option<&Tuple>
        ensures found { option_map fact_of (option_copied result)
            ≡ find (is_holding name.update name.place
            (option_map fact_of (option_copied past.entry))) (seen number self.now) }
        ensures in_order { IsRepository (seen number self.now) }
    {
        let base = self.base();
        let below = base.holding(name, past);
        let course = Course::Holding(name);
        let left = remaining(base, self.taken(), &course, below);
        least(left, self.table().holding(number, name, past))
    }

    // The least tuple of the relation that the update sees.
    pub(crate) fn first(&self, number: u32, relation: u16) -> Option<&Tuple>
        ensures found { option_map fact_of (option_copied result)
            ≡ first_of (seen number self.now) relation }
        ensures in_order { IsRepository (seen number self.now) }
    {
        let base = self.base();
        let below = base.first(relation);
        let left = remaining(base, self.taken(), &Course::Relation, below);
        least(left, self.table().first(number, relation))
    }

    // The least tuple above the given one in its relation that the update sees.
    pub(crate) fn after(&self, number: u32, tuple: &Tuple) -> Option<&Tuple>
        ensures found { option_map fact_of (option_copied result)
            ≡ next_of (seen number self.now) (fact_of tuple.now) }
        ensures in_order { IsRepository (seen number self.now) }
    {
        let base = self.base();
        let below = base.after(tuple);
        let left = remaining(base, self.taken(), &Course::Relation, below);
        least(left, self.table().after(number, tuple))
    }

    // The least tuple of the relation that the update sees with the value in the column, above `past`, if that is given.
    pub(crate) fn scan(
        &self,
        number: u32,
        relation: u16,
        column: u16,
        value: &Value,
        past: Option<&Tuple>,
    ) -> Option<&Tuple>
        ensures found { option_map fact_of (option_copied result)
            ≡ scan_of (seen number self.now) relation column (datum_of value.now)
            (option_map fact_of (option_copied past.entry)) }
        ensures in_order { IsRepository (seen number self.now) }
    {
        let base = self.base();
        let below = base.scan(relation, column, value, past);
        let course = Course::Column(relation, column, value);
        let left = remaining(base, self.taken(), &course, below);
        least(
            left,
            self.table().scan(number, relation, column, value, past),
        )
    }

    // The values that the tuples of the relation that the update sees have in the column, if they are at hand: the base's, if the
    // update sees no tuple of the relation in the table. Other values may be among them.
    pub(crate) fn values(&self, number: u32, relation: u16, column: u16) -> Option<&[Value]>
        ensures all { IfSome result (λ values.
            AreAllInColumn (map datum_of values.now) (seen number self.now) relation column) }
    {
        if self.table().first(number, relation).is_some() {
            return None;
        }
        self.base().values(relation, column)
    }

    // The tuples of the relation that the update sees, with the column's value and above `past`, if these are given, as far as
    // they are at hand. These are the base's, if none is taken or written, otherwise the base's before the first such tuple, or a
    // few of both.
    pub(crate) fn candidates(
        &self,
        number: u32,
        relation: u16,
        column: Option<Column<'_>>,
        past: Option<&Tuple>,
    ) -> Candidates<'_>
        ensures all { AreFurther result (seen number self.now) relation column.entry
            (option_copied past.entry) }
    {
        if column.is_none() {
            if let Some(tuple) = past {
                return self.onwards(number, relation, tuple);
            }
        }
        self.at_hand(number, relation, column, past)
    }

    // The candidates above a tuple, with no column given: an opening, if that has more than a few tuples, otherwise as `at_hand`
    // finds them.
    fn onwards(&self, number: u32, relation: u16, past: &Tuple) -> Candidates<'_>
        ensures all { AreFurther result (seen number self.now) relation None (Some past.now) }
    {
        let _ = self.base();
        if past.relation == relation {
            if let Some(opening) = self.up_to_written(number, past) {
                return Candidates::Opening(opening);
            }
        }
        self.at_hand(number, relation, None, Some(past))
    }

    // The candidates, merged from the base and the written tuples. Never inlined, so that a call that returns an opening need not
    // clear room for the other kinds.
    #[inline(never)]
    fn at_hand(
        &self,
        number: u32,
        relation: u16,
        column: Option<Column<'_>>,
        past: Option<&Tuple>,
    ) -> Candidates<'_>
        ensures all { AreFurther result (seen number self.now) relation column.entry
            (option_copied past.entry) }
    {
        match self.base().candidates(relation, column, past) {
            Candidates::Absent => self.written(number, relation, column, past),
            Candidates::Together(range) => {
                self.with_written(number, relation, column, past, Run::Together(range))
            }
            Candidates::Listed(tuples) => {
                self.with_written(number, relation, column, past, Run::Listed(tuples))
            }
            _ => {
                if self.base_lacks(relation, column, past) {
                    return self.written(number, relation, column, past);
                }
                Candidates::Apart
            }
        }
    }

    // The first few candidates, if the base has none.
    fn written(
        &self,
        number: u32,
        relation: u16,
        column: Option<Column<'_>>,
        past: Option<&Tuple>,
    ) -> Candidates<'_>
        requires none { further_candidates self.now.base relation (option_map column_of column)
            (option_map fact_of (option_copied past)) ≡ [] }
        ensures all { AreFurther result (seen number self.now) relation column.entry
            (option_copied past.entry) }
    {
        let _ = self.base();
        Candidates::Few(self.table().candidates(number, relation, column, past))
    }

    // The tuples above `past` in its relation that the update sees, up to the first one that was written or taken; None if the
    // base has only a few before that one.
    fn up_to_written(&self, number: u32, past: &Tuple) -> Option<Opening<'_>>
        ensures first { IfSome result (λ opening. Begin opening
            (further_candidates (seen number self.now) past.now.relation None
            (Some (fact_of past.now)))) }
    {
        let gone = self.taken().after(past);
        let put = no_later(self.table().after(number, past), gone);
        let end = put.or(gone)?;
        let range = self.base().inside(past, end);
        if !has_some(&range) {
            return None;
        }
        Some(Opening::new(range, put))
    }

    // A quick test: true only if the base has no such candidate.
    fn base_lacks(&self, relation: u16, column: Option<Column<'_>>, past: Option<&Tuple>) -> bool
        ensures none { IsTrue result → further_candidates self.now.base relation
            (option_map column_of column.entry) (option_map fact_of (option_copied past.entry)) ≡
            [] }
    {
        let base = self.base();
        match column {
            Some(column) => {
                let found = base.scan(relation, column.number, column.value, past);
                found.is_none()
            }
            None => base.first(relation).is_none(),
        }
    }

    // The candidates, if the run `base` has the base's.
    fn with_written<'a>(
        &'a self,
        number: u32,
        relation: u16,
        column: Option<Column<'_>>,
        past: Option<&Tuple>,
        base: Run<'a>,
    ) -> Candidates<'a>
        requires base { run_of base ≡ further_candidates self.now.base relation
            (option_map column_of column) (option_map fact_of (option_copied past)) }
        ensures all { AreFurther result (seen number self.now) relation column.entry
            (option_copied past.entry) }
    {
        let table = self.table();
        let mut written = Run::Few(table.candidates(number, relation, column, past));
        let put = written.next();
        if put.is_none() && self.taken().has_none(relation, past) {
            return base.at_hand();
        }
        Candidates::Few(few_of_both(base, self.taken(), put, written))
    }

    // The tuples that it sees, in order.
    pub(crate) fn sweep(&self, number: u32) -> Sweep<'_>
        ensures all { result ≡ seen number self.now }
    {
        let base = self.base().run();
        let taken = self.taken().passing();
        Sweep::of(base, taken, self.table().cursor(), number)
    }
}

// The first tuples of two merged runs: the tuples of `base` that are not taken, and the written tuples, which are `put` and then
// `written`.
fn few_of_both<'a>(
    base: Run<'a>,
    taken: &'a Taken,
    put: Option<&'a Tuple>,
    written: Run<'a>,
) -> Few<'a, Tuple>
    requires end { IfNone put (run_of written ≡ []) }
    ensures first { AreFirst result (merged (left_of taken.now (run_of base.entry))
        (ahead_of put.entry (run_of written.entry))) }
{
    let mut both = Merging::new(base, taken, put, written);
    both.few()
}

// The tuple `put`, if it is there and `gone` does not come before it.
fn no_later<'a>(put: Option<&'a Tuple>, gone: Option<&Tuple>) -> Option<&'a Tuple>
    ensures first { option_map fact_of (option_copied result) ≡
        put_first (option_map fact_of (option_copied put.entry))
        (option_map fact_of (option_copied gone.entry)) }
{
    let Some(tuple) = put else {
        return None;
    };
    let Some(other) = gone else {
        return put;
    };
    if tuple.cmp(other).is_le() {
        Some(tuple)
    } else {
        None
    }
}

// Whether the range has more than a few tuples. If memory runs out, the answer is no.
fn has_some(range: &Range<'_, Tuple>) -> bool {
    match range.clone() {
        Ok(mut tuples) => tuples.nth(FEW).is_some(),
        Err(_) => false,
    }
}

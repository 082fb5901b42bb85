//! Which writes may change the value of a read.
ghost use Rattle.std.specs.List.{list_any};
ghost use Rattle.std.specs.Prelude.{◌≡◌, false, map};
ghost use Rattle.base_types.specs.Contents.{rules_in};
ghost use Rattle.base_types.specs.Meanings.{change_of, fact_of, heading_of};
ghost use Rattle.chase_query.specs.Meanings.{query_of, read_of, reads_in, reads_of};
ghost use Rattle.core_conflict.specs.Changes.{meets_any, meets_any_apart};
ghost use Rattle.core_conflict.specs.Concerns.{breaks_some as breaks_some_def, concerns as concerns_def, found_none as found_none_def, is_hit, is_met as is_met_def, is_met_apart, may_violate as may_violate_def, meets as meets_def, tuple_of as tuple_of_def};
ghost use Rattle.core_conflict.specs.Trails.{trails_of};

use crate::impacts::Impact;
use crate::joins::{breaks_some, counts_all, may_decide, may_make};
use base_types::{Direction, MappingList, Tuple, Write};
use chase_query::{Logged, LoggedRead, Query, Reply};
use chase_unifier::is_more_specific;

/// The writes of one update, with its number and their impact, which shows quickly which attempts they do not meet.
#[derive(Drop)]
pub struct Trail<'r> {
    pub update: u32,
    pub writes: &'r [Write],
    pub impact: Impact,
}

/// How the writes of a trail changed what lies below a reader: they came after it asked, or were there then and went.
#[derive(Clone, Copy, Debug, PartialEq, Eq)]
pub enum Sense {
    Came,
    Went,
}

/// An attempt whose logged reads are looked at: the mappings, its direction, its own writes, and whether the writes of the
/// trails came or went below it.
#[derive(Drop)]
pub struct Reader<'r> {
    pub mappings: &'r MappingList,
    pub direction: Direction,
    pub own: &'r [Write],
    pub sense: Sense,
}

impl<'r> Reader<'r> {
    /// Whether a write of one of the trails may meet a read of the log; if `false`, none does. The reads that found no
    /// violation are not tested one by one: each mapping is tested once for all of them.
    pub(crate) fn may_be_met(&self, trails: &[Trail<'_>], log: &[Logged]) -> bool
        ensures unmet { result ≡ false → meets_any (rules_in self.now.mappings.now)
            (heading_of self.now.direction) (map change_of self.now.own.now) self.now.sense
            (trails_of trails.now) (reads_in log.now) ≡ false }
    {
        if counts_all(self.direction, self.own) {
            return true;
        }
        if self.is_broken(trails) {
            return true;
        }
        self.meets_apart(trails, log)
    }

    // Whether a write of one of the trails may break one of the mappings, with an own write.
    fn is_broken(&self, trails: &[Trail<'_>]) -> bool
        ensures { result ≡ is_hit (breaks_some_def (rules_in self.now.mappings.now)
            (heading_of self.now.direction) self.now.sense (map change_of self.now.own.now))
            (trails_of trails.now) }
    {
        trails.iter().any(|trail| self.is_broken_by(trail.writes))
    }

    // Whether one of the writes may break one of the mappings, with an own write.
    fn is_broken_by(&self, writes: &[Write]) -> bool
        ensures { result ≡ list_any (breaks_some_def (rules_in self.now.mappings.now)
            (heading_of self.now.direction) self.now.sense (map change_of self.now.own.now))
            (map change_of writes.now) }
    {
        writes.iter().any(|write| breaks_some(
            self.mappings,
            self.direction,
            self.sense,
            self.own,
            write,
        ))
    }

    // Whether a write of one of the trails meets a read of the log that is no search for a violation, or found one.
    fn meets_apart(&self, trails: &[Trail<'_>], log: &[Logged]) -> bool
        ensures { result ≡ meets_any_apart (rules_in self.now.mappings.now)
            (heading_of self.now.direction) (map change_of self.now.own.now) self.now.sense
            (trails_of trails.now) (reads_in log.now) }
    {
        log.iter()
            .any(|entry| self.meets_entry_apart(trails, entry))
    }

    // Whether a write of one of the trails meets such a read of the entry. A passage has none: all its reads found no
    // violation.
    fn meets_entry_apart(&self, trails: &[Trail<'_>], entry: &Logged) -> bool
        ensures { result ≡ meets_any_apart (rules_in self.now.mappings.now)
            (heading_of self.now.direction) (map change_of self.now.own.now) self.now.sense
            (trails_of trails.now) (reads_of entry.now) }
    {
        match entry {
            Logged::Asked(read) => self.is_met_apart(trails, read),
            Logged::Passed(_) => false,
        }
    }

    // Whether the read is no search for a violation, or found one, and a write of one of the trails meets it.
    fn is_met_apart(&self, trails: &[Trail<'_>], read: &LoggedRead) -> bool
        ensures { result ≡ is_met_apart (rules_in self.now.mappings.now)
            (heading_of self.now.direction) (map change_of self.now.own.now) self.now.sense
            (trails_of trails.now) (read_of read.now) }
    {
        if found_none(read) {
            return false;
        }
        self.is_met(trails, read)
    }

    /// Whether a write of one of the trails meets the read.
    pub(crate) fn is_met(&self, trails: &[Trail<'_>], read: &LoggedRead) -> bool
        ensures { result ≡ is_met_def (rules_in self.now.mappings.now)
            (heading_of self.now.direction) (map change_of self.now.own.now) self.now.sense
            (trails_of trails.now) (read_of read.now) }
    {
        trails
            .iter()
            .any(|trail| self.is_met_by(trail.writes, read))
    }

    // Whether one of the writes meets the read.
    fn is_met_by(&self, writes: &[Write], read: &LoggedRead) -> bool
        ensures { result ≡ list_any (meets_def (rules_in self.now.mappings.now)
            (heading_of self.now.direction) (map change_of self.now.own.now) self.now.sense
            (read_of read.now)) (map change_of writes.now) }
    {
        writes.iter().any(|write| self.meets(write, read))
    }

    // Whether the write meets the read. If the read found no violation, the write meets it if it may make one; else, if the
    // write's tuple concerns the query.
    fn meets(&self, write: &Write, read: &LoggedRead) -> bool
        ensures { result ≡ meets_def (rules_in self.now.mappings.now)
            (heading_of self.now.direction) (map change_of self.now.own.now) self.now.sense
            (read_of read.now) (change_of write.now) }
    {
        match &read.answer {
            Reply::Nothing => self.may_violate(&read.query, write),
            Reply::Yes => self.concerns(&read.query, tuple_of(write)),
            Reply::No => self.concerns(&read.query, tuple_of(write)),
            Reply::Image(_) => self.concerns(&read.query, tuple_of(write)),
            Reply::Tuples(_) => self.concerns(&read.query, tuple_of(write)),
        }
    }

    // Whether the write may make a violation that the query asks for; for any other query, whether its tuple concerns the
    // query.
    fn may_violate(&self, query: &Query, write: &Write) -> bool
        ensures { result ≡ may_violate_def (rules_in self.now.mappings.now)
            (heading_of self.now.direction) (map change_of self.now.own.now) self.now.sense
            (query_of query.now) (change_of write.now) }
    {
        match query {
            Query::Violation(number) => {
                let mapping = self.mappings.get(*number as usize);
                may_make(mapping, self.direction, self.own, self.sense, write)
            }
            Query::Present(_) => self.concerns(query, tuple_of(write)),
            Query::Specific(_) => self.concerns(query, tuple_of(write)),
            Query::Occurs(_) => self.concerns(query, tuple_of(write)),
        }
    }

    // Whether the tuple concerns the query: it is the tuple asked for, it may decide the violation asked for, it is more
    // specific than the tuple asked for, or it holds the null asked for.
    fn concerns(&self, query: &Query, tuple: &Tuple) -> bool
        ensures { result ≡ concerns_def (rules_in self.now.mappings.now)
            (heading_of self.now.direction) (map change_of self.now.own.now)
            (query_of query.now) (fact_of tuple.now) }
    {
        match query {
            Query::Present(asked) => asked == tuple,
            Query::Violation(number) => {
                let mapping = self.mappings.get(*number as usize);
                may_decide(mapping, self.direction, self.own, tuple)
            }
            Query::Specific(asked) => is_more_specific(asked, tuple),
            Query::Occurs(name) => tuple.holds_null(*name),
        }
    }
}

// Whether the read asked for a violation, and the answer is that there is none.
fn found_none(read: &LoggedRead) -> bool
    ensures { result ≡ found_none_def (read_of read.now) }
{
    match &read.query {
        Query::Violation(_) => matches!(read.answer, Reply::Nothing),
        Query::Present(_) => false,
        Query::Specific(_) => false,
        Query::Occurs(_) => false,
    }
}

/// The tuple that is written.
pub(crate) fn tuple_of(write: &Write) -> &Tuple
    ensures { fact_of result.now ≡ tuple_of_def (change_of write.now) }
{
    match write {
        Write::Insert(tuple) => tuple,
        Write::Delete(tuple) => tuple,
    }
}

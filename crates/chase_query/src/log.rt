//! The reads of an attempt, in order.
ghost use Rattle.std.specs.Prelude.{◌≡◌, ◌+◌, ◌-◌, length, IfOk};
ghost use Rattle.std.specs.List.{list_any};
ghost use Rattle.base_types.specs.Contents.{rules_in};
ghost use Rattle.chase_query.specs.Meanings.{Read, finds_none as finds_none_def, own_of, passing, read_of, reads_of};
ghost use Rattle.chase_query.specs.Mentioning.{mentioned};

use crate::queries::{Query, mentions, violation_mentions};
use crate::replies::Reply;
use base_types::{List, MappingList, Memory, TryCopy};
use std::alloc::Global;

/// A logged read: the query, its answer, and the number of writes that the attempt had made before it.
#[derive(Debug, Drop)]
pub struct LoggedRead {
    pub query: Query,
    pub answer: Reply,
    pub own: u64,
}

/// Mappings that a look passed: the mappings from number `start` up to, but without, `end` were asked for their first violation
/// one after the other and had none, by an attempt that had made `own` writes.
#[derive(Clone, Copy, Debug)]
pub struct Passage {
    pub start: u16,
    pub end: u16,
    pub own: u64,
}

/// An entry of a log: one read, or the reads of a passage of mappings, one for each.
#[derive(Debug, Drop)]
pub enum Logged {
    Asked(LoggedRead),
    Passed(Passage),
}

/// The reads of an attempt, in the order in which they were made.
pub type ReadLog = List<Logged>;

impl TryCopy for LoggedRead {
    ghost Meaning = { Read };

    ghost meaning = { read_of };

    fn copy(&self, alloc: Global) -> Result<LoggedRead, Memory>
        ensures same { IfOk result (λ copy. read_of copy ≡ read_of self.now) }
    {
        Ok(LoggedRead {
            query: self.query.copy(alloc)?,
            answer: self.answer.copy(alloc)?,
            own: self.own,
        })
    }
}

impl Logged {
    /// The number of writes that the attempt had made before the entry.
    pub fn own(&self) -> u64
        ensures own { result ≡ own_of self.now }
    {
        match self {
            Logged::Asked(read) => read.own,
            Logged::Passed(passage) => passage.own,
        }
    }

    /// The number of reads up to the last one of the entry, if `before` reads come before it. It is refused if the number does
    /// not fit a `u64`, which is more than any memory holds.
    pub fn count_on(&self, before: u64) -> Result<u64, Memory>
        ensures counted { IfOk result (λ all. all ≡ before + length (reads_of self.now)) }
    {
        match before.checked_add(self.count()) {
            Some(all) => Ok(all),
            None => Err(Memory),
        }
    }

    // The number of reads that it stands for.
    fn count(&self) -> u64
        ensures count { result ≡ length (reads_of self.now) }
    {
        match self {
            Logged::Asked(_) => 1,
            Logged::Passed(passage) => passage.count(),
        }
    }

    /// Whether one of the reads mentions the relation.
    pub fn mentions(&self, mappings: &MappingList, relation: u16) -> bool
        ensures answer { result ≡
            list_any (mentioned (rules_in mappings.now) relation) (reads_of self.now) }
    {
        match self {
            Logged::Asked(read) => mentions(&read.query, mappings, relation),
            Logged::Passed(passage) => passage.mentions(mappings, relation),
        }
    }
}

impl Passage {
    // The number of mappings.
    fn count(self) -> u64
        ensures count { result ≡ length (passing self.start (self.end - self.start) self.own) }
    {
        u64::from(self.end.saturating_sub(self.start))
    }

    // Whether one of the mappings mentions the relation.
    fn mentions(self, mappings: &MappingList, relation: u16) -> bool
        ensures answer { result ≡ list_any (mentioned (rules_in mappings.now) relation)
            (passing self.start (self.end - self.start) self.own) }
    {
        for number in self.start..self.end {
            if violation_mentions(number, mappings, relation) {
                return true;
            }
        }
        false
    }
}

/// The read that the mapping of this number has no violation, by an attempt that had made `own` writes.
pub fn finds_none(number: u16, own: u64) -> LoggedRead
    ensures read { read_of result ≡ finds_none_def number own }
{
    LoggedRead {
        query: Query::Violation(number),
        answer: Reply::Nothing,
        own,
    }
}

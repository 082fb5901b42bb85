//! What is lost below an update: the trails of the updates that are restarted.
ghost use Rattle.std.specs.Prelude.{◌≡◌, ◌+◌, ◌-◌, ◌<◌, ◌^◌, [], ◌∷◌, length, List, map, IfOk, OnOk};
ghost use Rattle.std.specs.Option.{option_map};
ghost use Rattle.base_types.specs.Contents.{rules_in};
ghost use Rattle.base_types.specs.Meanings.{change_of};
ghost use Rattle.def_chase.specs.Mappings.{Rule};
ghost use Rattle.core_queue.specs.Programs.{IsBetween};
ghost use Rattle.chase_query.specs.Meanings.{finds_none as finds_none_def, passing, read_of, reads_in, reads_of};
ghost use Rattle.def_steps.specs.Chase.{relation_of};
ghost use Rattle.core_cascade.specs.Reached.{is_reached, any_reached, least_writer, numbered_of, first_reached as first_reached_def, first_reached_from};
ghost use Rattle.core_conflict.specs.Trails.{trails_of};
ghost use Rattle.core_cascade.specs.Walks.{HasLostImpact, Loses, LosesWhere};

use crate::reads::Numbered;
use base_types::{MappingList, Memory, TryCopy, Write};
use chase_query::{Logged, LoggedRead, Passage, finds_none, mentions};
use core_conflict::{Impact, Sense, Trail};
use core_queue::QueuedUpdate;
use set_versions::Versions;
use std::alloc::Global;

/// The versions without the trails that are lost, and the updates whose trails these were, in number order.
#[derive(Drop)]
pub(crate) struct Lost<'r> {
    pub(crate) without: Versions,
    pub(crate) members: Vec<Trail<'r>>,
}

impl<'r> Lost<'r> {
    /// Nothing is lost.
    pub(crate) fn none(alloc: Global, whole: &Versions) -> Result<Lost<'r>, Memory>
        ensures without { IfOk result (λ lost. lost.without ≡ whole.now) }
        ensures members { IfOk result (λ lost. lost.members.items ≡ []) }
        ensures impact { IfOk result (λ lost. (ms : List Rule) → HasLostImpact ms lost) }
    {
        Ok(Lost {
            without: whole.share()?,
            members: Vec::new(alloc),
        })
    }

    /// Loses the trail of the update of this number.
    pub(crate) fn lose(
        &mut self,
        alloc: Global,
        mappings: &MappingList,
        number: u32,
        trail: &'r [Write],
    ) -> Result<(), Memory>
        requires impact { HasLostImpact (rules_in mappings.now) self.old }
        ensures lost { OnOk result (Loses number (map change_of trail.now) self.old self.new) }
        ensures impact { OnOk result (HasLostImpact (rules_in mappings.now) self.new) }
    {
        let impact = Impact::none().with(mappings, Sense::Went, trail);
        self.without.retract(alloc, number, trail)?;
        self.members.push(Trail {
            update: number,
            writes: trail,
            impact,
        })?;
        Ok(())
    }

    /// Loses the trail of the reader, if it is restarted.
    pub(crate) fn lose_where(
        &mut self,
        alloc: Global,
        mappings: &MappingList,
        restarts: bool,
        reader: &'r QueuedUpdate,
    ) -> Result<(), Memory>
        requires between { IsBetween reader.now.program }
        requires impact { HasLostImpact (rules_in mappings.now) self.old }
        ensures lost { OnOk result (LosesWhere restarts reader.now self.old self.new) }
        ensures impact { OnOk result (HasLostImpact (rules_in mappings.now) self.new) }
    {
        if !restarts {
            return Ok(());
        }
        self.lose(alloc, mappings, reader.number(), reader.trail())?;
        Ok(())
    }

    /// The first of the reads that mentions a relation of a lost write.
    pub(crate) fn first_reached(
        &self,
        alloc: Global,
        mappings: &MappingList,
        log: &[Logged],
    ) -> Result<Option<Numbered>, Memory>
        ensures first { IfOk result (λ found. option_map numbered_of found ≡
            first_reached_def (rules_in mappings.now) self.now.members.items (reads_in log.now)) }
    {
        let mut number = 0;
        for entry in log {
            let all = entry.count_on(number)?;
            if let Some(found) = self.reached_by(alloc, mappings, number, entry)? {
                return Ok(Some(found));
            }
            number = all;
        }
        Ok(None)
    }

    // The first of the entry's reads that mentions a relation of a lost write; `before` reads come before the entry.
    fn reached_by(
        &self,
        alloc: Global,
        mappings: &MappingList,
        before: u64,
        entry: &Logged,
    ) -> Result<Option<Numbered>, Memory>
        requires fits { before + length (reads_of entry.now) < 2 ^ 64 }
        ensures first { IfOk result (λ found. option_map numbered_of found ≡ first_reached_from
            (rules_in mappings.now) self.now.members.items (before + 1) (reads_of entry.now)) }
    {
        match entry {
            Logged::Asked(read) => self.reached_read(alloc, mappings, before + 1, read),
            Logged::Passed(passage) => self.reached_in_passage(alloc, mappings, before, passage),
        }
    }

    // The first of the passage's reads that mentions a relation of a lost write; `before` reads come before the passage.
    fn reached_in_passage(
        &self,
        alloc: Global,
        mappings: &MappingList,
        before: u64,
        passage: &Passage,
    ) -> Result<Option<Numbered>, Memory>
        requires fits { before + (passage.now.end - passage.now.start) < 2 ^ 64 }
        ensures first { IfOk result (λ found. option_map numbered_of found ≡ first_reached_from
            (rules_in mappings.now) self.now.members.items (before + 1)
            (passing passage.now.start (passage.now.end - passage.now.start) passage.now.own)) }
    {
        let mut number = before;
        for mapping in passage.start..passage.end {
            number += 1;
            let found = self.reached_mapping(alloc, mappings, number, mapping, passage.own)?;
            if let Some(found) = found {
                return Ok(Some(found));
            }
        }
        Ok(None)
    }

    // The read of this number, that the mapping has no violation for an attempt with `made` own writes, if it mentions a
    // relation of a lost write.
    fn reached_mapping(
        &self,
        alloc: Global,
        mappings: &MappingList,
        number: u64,
        mapping: u16,
        made: u64,
    ) -> Result<Option<Numbered>, Memory>
        ensures first { IfOk result (λ found. option_map numbered_of found ≡ first_reached_from
            (rules_in mappings.now) self.now.members.items number
            (finds_none_def mapping made ∷ [])) }
    {
        let read = finds_none(mapping, made);
        let found = self.reached_read(alloc, mappings, number, &read)?;
        Ok(found)
    }

    // The read of this number, if it mentions a relation of a lost write.
    fn reached_read(
        &self,
        alloc: Global,
        mappings: &MappingList,
        number: u64,
        read: &LoggedRead,
    ) -> Result<Option<Numbered>, Memory>
        ensures first { IfOk result (λ found. option_map numbered_of found ≡ first_reached_from
            (rules_in mappings.now) self.now.members.items number (read_of read.now ∷ [])) }
    {
        if !reaches_any(&self.members, mappings, read) {
            return Ok(None);
        }
        Ok(Some(Numbered {
            number,
            read: read.copy(alloc)?,
        }))
    }

    /// The least update with a lost write of a relation that the read mentions; 0, which is no update, if there is none.
    pub(crate) fn writer_for(&self, mappings: &MappingList, read: &LoggedRead) -> u32
        ensures writer { result ≡
            least_writer (rules_in mappings.now) (read_of read.now) self.now.members.items }
    {
        for member in &self.members {
            if reaches(member.writes, mappings, read) {
                return member.update;
            }
        }
        0
    }
}

// Whether the read mentions a relation that one of the members wrote.
fn reaches_any(members: &[Trail<'_>], mappings: &MappingList, read: &LoggedRead) -> bool
    ensures { result ≡
        any_reached (rules_in mappings.now) (trails_of members.now) (read_of read.now) }
{
    members
        .iter()
        .any(|member| reaches(member.writes, mappings, read))
}

// Whether the read mentions the relation of one of the writes.
fn reaches(trail: &[Write], mappings: &MappingList, read: &LoggedRead) -> bool
    ensures { result ≡
        is_reached (rules_in mappings.now) (read_of read.now) (map change_of trail.now) }
{
    trail.iter().any(|write| mentions(&read.query, mappings, written_relation(write)))
}

// The relation of the write.
fn written_relation(write: &Write) -> u16
    ensures { result ≡ relation_of (change_of write.now) }
{
    match write {
        Write::Insert(tuple) => tuple.relation,
        Write::Delete(tuple) => tuple.relation,
    }
}

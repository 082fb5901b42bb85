//! What is lost below an update: the trails of the members, that is, of the updates that go.
ghost use Rattle.std.specs.Prelude.{◌≡◌, ◌||◌, ◌+◌, ◌-◌, ◌<◌, ◌^◌, [], ◌∷◌, length, map, true, IfOk, OnOk, is_some as is_some_def};
ghost use Rattle.std.specs.List.{list_any};
ghost use Rattle.std.specs.Option.{option_map};
ghost use Rattle.base_types.specs.Contents.{rules_in};
ghost use Rattle.base_types.specs.Meanings.{change_of};
ghost use Rattle.def_machine.specs.Reads.{first_that};
ghost use Rattle.def_machine.specs.Updates.{Precise};
ghost use Rattle.chase_query.specs.Meanings.{finds_none as finds_none_def, passing, read_of, reads_in, reads_of};
ghost use Rattle.def_chase.specs.Mentions.{mentions as mentions_def};
ghost use Rattle.audit_updates.specs.Programs.{IsBetween};
ghost use Rattle.audit_updates.specs.Settings.{deps_of};
ghost use Rattle.audit_replay.specs.Causes.{AreTold, IsFirstDependent, LeavesBelow, Loses, least_writer, numbered_of};
ghost use Rattle.audit_replay.specs.Changes.{first_after, is_read_met};
ghost use Rattle.audit_replay.specs.Relations.{any_of};
ghost use Rattle.audit_replay.specs.Levels.{RisesFrom, top};

use crate::changes::changed_read;
use crate::levels::Levels;
use crate::relations::{is_met, put_relations, relation_of};
use audit_updates::{AuditedUpdate, Deps};
use base_types::{MappingList, Memory, TryCopy, Write};
use chase_query::{Logged, LoggedRead, Passage, finds_none, mentions};
use std::alloc::Global;

/// An update that loses its trail, with that trail.
#[derive(Drop)]
pub(crate) struct Member<'r> {
    pub(crate) number: u32,
    pub(crate) trail: &'r [Write],
}

/// The members in number order, and the relations of their writes, each once.
#[derive(Drop)]
pub(crate) struct Losses<'r> {
    pub(crate) members: Vec<Member<'r>>,
    pub(crate) relations: Vec<u16>,
}

/// A logged read with its number in the log, from 1.
#[derive(Drop)]
pub(crate) struct Numbered {
    pub(crate) number: u64,
    pub(crate) read: LoggedRead,
}

impl<'r> Losses<'r> {
    /// Losses without members.
    pub(crate) fn none(alloc: Global) -> Losses<'r>
        ensures none { result.members.items ≡ [] }
        ensures told { AreTold result }
    {
        Losses {
            members: Vec::new(alloc),
            relations: Vec::new(alloc),
        }
    }

    /// Adds the loss of the trail of the update `number`.
    pub(crate) fn lose(&mut self, number: u32, trail: &'r [Write]) -> Result<(), Memory>
        ensures lost { OnOk result (Loses number (map change_of trail.now) self.old self.new) }
    {
        put_relations(&mut self.relations, trail)?;
        self.members.push(Member { number, trail })?;
        Ok(())
    }

    /// Passes the update, below which the uppermost level lies: it becomes a member, or its trail is put on top of the levels.
    pub(crate) fn pass(
        &mut self,
        alloc: Global,
        levels: &mut Levels,
        goes: bool,
        audited: &'r AuditedUpdate,
    ) -> Result<(), Memory>
        requires between { IsBetween audited.now.program }
        ensures left { OnOk result
            (LeavesBelow goes audited.now levels.old levels.new self.old self.new) }
        ensures rises { OnOk result (RisesFrom levels.old levels.new) }
    {
        if goes {
            self.lose(audited.number(), audited.trail())?;
            return Ok(());
        }
        levels.rise(alloc, audited.trail())?;
        Ok(())
    }

    /// The first read of the update that depends on what is lost. Such a read mentions a relation of the lost writes; if
    /// dependence is tested by values, it also has another value without them. The uppermost level lies below the update, without
    /// what is lost.
    pub(crate) fn first_dependent(
        &self,
        alloc: Global,
        levels: &Levels,
        audited: &AuditedUpdate,
        mappings: &MappingList,
        deps: Deps,
    ) -> Result<Option<Numbered>, Memory>
        ensures first { IfOk result (IsFirstDependent (deps_of deps) (rules_in mappings.now)
            self.now (top levels.now) audited.now) }
    {
        match deps {
            Deps::Precise => self.first_changed(alloc, levels, audited, mappings),
            Deps::Coarse => self.first_met(alloc, audited.log.as_slice(), mappings),
        }
    }

    // The first read of the update that mentions a relation of what is lost and has another value without it.
    fn first_changed(
        &self,
        alloc: Global,
        levels: &Levels,
        audited: &AuditedUpdate,
        mappings: &MappingList,
    ) -> Result<Option<Numbered>, Memory>
        ensures first { IfOk result (IsFirstDependent Precise
            (rules_in mappings.now) self.now (top levels.now) audited.now) }
    {
        let relations = self.relations.as_slice();
        let below = levels.facts();
        match changed_read(alloc, audited, mappings, below, relations)? {
            Some(change) => Ok(Some(Numbered {
                number: change.number,
                read: change.read,
            })),
            None => Ok(None),
        }
    }

    // The first of the reads that mentions a relation of what is lost.
    fn first_met(
        &self,
        alloc: Global,
        log: &[Logged],
        mappings: &MappingList,
    ) -> Result<Option<Numbered>, Memory>
        ensures first { IfOk result (λ found. option_map numbered_of found ≡
            first_that (is_read_met (rules_in mappings.now) self.now.relations.items)
            (reads_in log.now)) }
    {
        let mut number = 0;
        'entries: for entry in log {
            let all = entry.count_on(number)?;
            if let Some(found) = self.met_by(alloc, number, entry, mappings)? {
                return Ok(Some(found));
            }
            number = all;
        }
        Ok(None)
    }

    // The first such read of an entry of the log, after `before` reads of other entries.
    fn met_by(
        &self,
        alloc: Global,
        before: u64,
        entry: &Logged,
        mappings: &MappingList,
    ) -> Result<Option<Numbered>, Memory>
        requires fits { before + length (reads_of entry.now) < 2 ^ 64 }
        ensures first { IfOk result (λ found. option_map numbered_of found ≡
            first_after (is_read_met (rules_in mappings.now) self.now.relations.items) before
            (reads_of entry.now)) }
    {
        match entry {
            Logged::Asked(read) => self.met_at(alloc, before, read, mappings),
            Logged::Passed(passage) => self.met_in_passage(alloc, before, passage, mappings),
        }
    }

    // The first such read of a passage, after `before` other reads.
    fn met_in_passage(
        &self,
        alloc: Global,
        before: u64,
        passage: &Passage,
        mappings: &MappingList,
    ) -> Result<Option<Numbered>, Memory>
        requires fits { before + (passage.now.end - passage.now.start) < 2 ^ 64 }
        ensures first { IfOk result (λ found. option_map numbered_of found ≡
            first_after (is_read_met (rules_in mappings.now) self.now.relations.items) before
            (passing passage.now.start (passage.now.end - passage.now.start) passage.now.own)) }
    {
        let mut number = before;
        for mapping in passage.start..passage.end {
            let found = self.met_mapping(alloc, number, mapping, passage.own, mappings)?;
            if let Some(found) = found {
                return Ok(Some(found));
            }
            number += 1;
        }
        Ok(None)
    }

    // The read, after `before` others, that the mapping had no violation when the attempt had made `made` writes, if it mentions
    // a relation of what is lost.
    fn met_mapping(
        &self,
        alloc: Global,
        before: u64,
        mapping: u16,
        made: u64,
        mappings: &MappingList,
    ) -> Result<Option<Numbered>, Memory>
        requires fits { before + 1 < 2 ^ 64 }
        ensures first { IfOk result (λ found. option_map numbered_of found ≡
            first_after (is_read_met (rules_in mappings.now) self.now.relations.items) before
            (finds_none_def mapping made ∷ [])) }
    {
        let read = finds_none(mapping, made);
        let found = self.met_at(alloc, before, &read, mappings)?;
        Ok(found)
    }

    // The read, after `before` others, if it mentions a relation of what is lost.
    fn met_at(
        &self,
        alloc: Global,
        before: u64,
        read: &LoggedRead,
        mappings: &MappingList,
    ) -> Result<Option<Numbered>, Memory>
        requires fits { before + 1 < 2 ^ 64 }
        ensures first { IfOk result (λ found. option_map numbered_of found ≡
            first_after (is_read_met (rules_in mappings.now) self.now.relations.items) before
            (read_of read.now ∷ [])) }
    {
        if !is_met(&read.query, mappings, self.relations.as_slice()) {
            return Ok(None);
        }
        Ok(Some(Numbered {
            number: before + 1,
            read: read.copy(alloc)?,
        }))
    }

    /// The least member that wrote in a relation that the read mentions; 0, which is no update, if there is none.
    pub(crate) fn writer_for(&self, read: &LoggedRead, mappings: &MappingList) -> u32
        ensures writer { result ≡
            least_writer (rules_in mappings.now) (read_of read.now) self.now.members.items }
    {
        for member in &self.members {
            if reaches(member.trail, read, mappings) {
                return member.number;
            }
        }
        0
    }
}

// Whether the read mentions the relation of one of the writes.
fn reaches(trail: &[Write], read: &LoggedRead, mappings: &MappingList) -> bool
    ensures reached { result ≡
        any_of (mentions_def (rules_in mappings.now) (read_of read.now).query)
        (map change_of trail.now) }
{
    trail.iter().any(|write| mentions(&read.query, mappings, relation_of(write)))
}

//! The first of an update's reads that has another value now.
ghost use Rattle.std.specs.Prelude.{◌≡◌, ◌+◌, ◌-◌, ◌<◌, ◌^◌, [], ◌∷◌, length, map, take, IfOk};
ghost use Rattle.std.specs.Option.{option_map};
ghost use Rattle.base_types.specs.Contents.{rules_in};
ghost use Rattle.base_types.specs.Meanings.{change_of, heading_of};
ghost use Rattle.chase_query.specs.Meanings.{finds_none as finds_none_def, passing, read_of, reads_in, reads_of, reply_of};
ghost use Rattle.audit_replay.specs.Changes.{IsFirstChange, change_meant, first_change, value_now as value_now_def};
ghost use Rattle.audit_replay.specs.Asked.{changed_after};

use crate::relations::is_met;
use audit_updates::AuditedUpdate;
use base_types::{Direction, MappingList, Memory, TryCopy, Write};
use chase_eval::View;
use chase_query::{Logged, LoggedRead, Passage, Reply, finds_none};
use set_facts::IndexedFacts;
use std::alloc::Global;

/// A read that has another value now: its number in the log, from 1, the read with its logged reply, and its value now.
#[derive(Drop)]
pub(crate) struct Change {
    pub(crate) number: u64,
    pub(crate) read: LoggedRead,
    pub(crate) now: Reply,
}

/// What determines the values of an update's reads: the mappings, the facts below it, its own writes, and its direction.
#[derive(Drop)]
pub(crate) struct Reader<'r> {
    pub(crate) mappings: &'r MappingList,
    pub(crate) below: &'r IndexedFacts,
    pub(crate) own: &'r [Write],
    pub(crate) direction: Direction,
}

/// The first read of the update's log that mentions one of the relations and has another value over the facts below the update.
pub(crate) fn changed_read(
    alloc: Global,
    audited: &AuditedUpdate,
    mappings: &MappingList,
    below: &IndexedFacts,
    relations: &[u16],
) -> Result<Option<Change>, Memory>
    ensures first { IfOk result
        (IsFirstChange (rules_in mappings.now) relations.now below.now audited.now) }
{
    let reader = Reader {
        mappings,
        below,
        own: audited.program.own().as_slice(),
        direction: audited.program.direction(),
    };
    first_changed(alloc, &reader, relations, audited.log.as_slice())
}

// The first read of the log that mentions one of the relations and has another value.
fn first_changed(
    alloc: Global,
    reader: &Reader<'_>,
    relations: &[u16],
    log: &[Logged],
) -> Result<Option<Change>, Memory>
    ensures first { IfOk result (λ found. option_map change_meant found ≡
        first_change (rules_in reader.now.mappings.now) relations.now
        (heading_of reader.now.direction) reader.now.below.now (map change_of reader.now.own.now)
        (reads_in log.now)) }
{
    let mut number = 0;
    'entries: for entry in log {
        let all = entry.count_on(number)?;
        let found = changed_by(alloc, reader, relations, number, entry)?;
        if let Some(change) = found {
            return Ok(Some(change));
        }
        number = all;
    }
    Ok(None)
}

// The first such read of an entry of the log, after `before` reads of other entries.
fn changed_by(
    alloc: Global,
    reader: &Reader<'_>,
    relations: &[u16],
    before: u64,
    entry: &Logged,
) -> Result<Option<Change>, Memory>
    requires fits { before + length (reads_of entry.now) < 2 ^ 64 }
    ensures first { IfOk result (λ found. option_map change_meant found ≡
        changed_after before reader.now relations.now (reads_of entry.now)) }
{
    match entry {
        Logged::Asked(read) => changed_at(alloc, reader, relations, before, read),
        Logged::Passed(passage) => changed_in_passage(alloc, reader, relations, before, passage),
    }
}

// The first such read of a passage, after `before` other reads.
fn changed_in_passage(
    alloc: Global,
    reader: &Reader<'_>,
    relations: &[u16],
    before: u64,
    passage: &Passage,
) -> Result<Option<Change>, Memory>
    requires fits { before + (passage.now.end - passage.now.start) < 2 ^ 64 }
    ensures first { IfOk result (λ found. option_map change_meant found ≡
        changed_after before reader.now relations.now
        (passing passage.now.start (passage.now.end - passage.now.start) passage.now.own)) }
{
    let mut number = before;
    for mapping in passage.start..passage.end {
        let found = changed_mapping(alloc, reader, relations, number, mapping, passage.own)?;
        if let Some(change) = found {
            return Ok(Some(change));
        }
        number += 1;
    }
    Ok(None)
}

// The read, after `before` others, that the mapping had no violation when the attempt had made `made` writes, if it mentions one
// of the relations and has another value.
fn changed_mapping(
    alloc: Global,
    reader: &Reader<'_>,
    relations: &[u16],
    before: u64,
    mapping: u16,
    made: u64,
) -> Result<Option<Change>, Memory>
    requires fits { before + 1 < 2 ^ 64 }
    ensures first { IfOk result (λ found. option_map change_meant found ≡
        changed_after before reader.now relations.now (finds_none_def mapping made ∷ [])) }
{
    let read = finds_none(mapping, made);
    let change = changed_at(alloc, reader, relations, before, &read)?;
    Ok(change)
}

// The read, after `before` others, if it mentions one of the relations and has another value.
fn changed_at(
    alloc: Global,
    reader: &Reader<'_>,
    relations: &[u16],
    before: u64,
    read: &LoggedRead,
) -> Result<Option<Change>, Memory>
    requires fits { before + 1 < 2 ^ 64 }
    ensures first { IfOk result (λ found. option_map change_meant found ≡
        changed_after before reader.now relations.now (read_of read.now ∷ [])) }
{
    if !is_met(&read.query, reader.mappings, relations) {
        return Ok(None);
    }
    let now = value_now(alloc, reader, read)?;
    if now.is_same(&read.answer) {
        return Ok(None);
    }
    Ok(Some(Change {
        number: before + 1,
        read: read.copy(alloc)?,
        now,
    }))
}

// The value that the read has now.
fn value_now(alloc: Global, reader: &Reader<'_>, read: &LoggedRead) -> Result<Reply, Memory>
    ensures value { IfOk result (λ answer. reply_of answer ≡
        value_now_def (rules_in reader.now.mappings.now) (heading_of reader.now.direction)
        reader.now.below.now (map change_of reader.now.own.now) (read_of read.now)) }
{
    let mut view = View::new(alloc, reader.below);
    view.write_all(alloc, first_of(reader.own, read.own))?;
    view.eval(&read.query, reader.mappings, reader.direction, alloc)
}

#[tactic(auto, using(crate::proofs::Seen::first_taken))]
// The first writes, at most `many` of them.
fn first_of(own: &[Write], many: u64) -> &[Write]
    ensures first { map change_of result.now ≡ take many (map change_of own.now) }
{
    if many < own.len() as u64 {
        return &own[..many as usize];
    }
    own
}

//! The first of an attempt's logged reads that has another value now.
ghost use Rattle.std.specs.Prelude.{◌≡◌, ◌+◌, ◌-◌, ◌<◌, ◌^◌, [], ◌∷◌, length, map, IfOk, OnOk};
ghost use Rattle.std.specs.Option.{option_map};
ghost use Rattle.base_types.specs.Meanings.{change_of, heading_of};
ghost use Rattle.chase_query.specs.Meanings.{passing, read_of, reads_in, reads_of};
ghost use Rattle.core_conflict.specs.Changes.{first_changed as first_changed_def};
ghost use Rattle.core_conflict.specs.Meanings.{changed_of};
ghost use Rattle.core_conflict.specs.Looking.{SeesFirst, changed_from};
ghost use Rattle.core_conflict.specs.Trails.{trails_of};
ghost use Rattle.base_types.specs.Contents.{rules_in};

use crate::concerns::{Reader, Trail};
use crate::views::{EarlierView, see, standing_then};
use base_types::{Facts, Memory, TryCopy};
use chase_eval::View;
use chase_query::{Logged, LoggedRead, Passage, Reply, finds_none};
use std::alloc::Global;

/// A logged read that has another value now: its number in the log, from 1; the read with its old answer; and its value now.
#[derive(Drop)]
pub struct Changed {
    pub number: u64,
    pub read: LoggedRead,
    pub now: Reply,
}

/// Finds the first read of the log that a write of these trails meets and whose value over `below` differs from its answer. The
/// writes came or went, as `reader.sense` says, after the reader made its reads.
pub fn first_changed<F: Facts>(
    alloc: Global,
    reader: &Reader<'_>,
    trails: &[Trail<'_>],
    below: &F,
    log: &[Logged],
) -> Result<Option<Changed>, Memory>
    ensures first { IfOk result (λ found. option_map changed_of found ≡
        first_changed_def (rules_in reader.now.mappings.now) (heading_of reader.now.direction)
        (F.tuples below.now) (map change_of reader.now.own.now) reader.now.sense
        (trails_of trails.now) (reads_in log.now)) }
{
    if !reader.may_be_met(trails, log) {
        return Ok(None);
    }
    let mut earlier = EarlierView {
        view: View::new(alloc, below),
        seen: 0,
    };
    let found = changed_in(alloc, reader, trails, below, &mut earlier, log)?;
    Ok(found)
}

// The first read of the log that is met and has another value now. The view has no own write yet.
fn changed_in<'a, F: Facts>(
    alloc: Global,
    reader: &Reader<'_>,
    trails: &[Trail<'_>],
    below: &'a F,
    earlier: &mut EarlierView<'a, F>,
    log: &[Logged],
) -> Result<Option<Changed>, Memory>
    requires sees { SeesFirst (F.tuples below.now) (map change_of reader.now.own.now)
        earlier.old.seen earlier.old.view }
    ensures first { IfOk result (λ found. option_map changed_of found ≡
        changed_from reader.now trails.now (F.tuples below.now) 1 (reads_in log.now)) }
{
    let mut number = 0;
    'entries: for entry in log {
        let all = entry.count_on(number)?;
        let found = changed_by(alloc, reader, trails, below, earlier, number, entry)?;
        if let Some(changed) = found {
            return Ok(Some(changed));
        }
        number = all;
    }
    Ok(None)
}

// The first of the entry's reads that is met and has another value now; `before` reads come before the entry.
fn changed_by<'a, F: Facts>(
    alloc: Global,
    reader: &Reader<'_>,
    trails: &[Trail<'_>],
    below: &'a F,
    earlier: &mut EarlierView<'a, F>,
    before: u64,
    entry: &Logged,
) -> Result<Option<Changed>, Memory>
    requires sees { SeesFirst (F.tuples below.now) (map change_of reader.now.own.now)
        earlier.old.seen earlier.old.view }
    requires fits { before + length (reads_of entry.now) < 2 ^ 64 }
    ensures sees { OnOk result (SeesFirst (F.tuples below.now)
        (map change_of reader.now.own.now) earlier.new.seen earlier.new.view) }
    ensures first { IfOk result (λ found. option_map changed_of found ≡
        changed_from reader.now trails.now (F.tuples below.now) (before + 1) (reads_of entry.now)) }
{
    match entry {
        Logged::Asked(read) => {
            changed_read(alloc, reader, trails, below, earlier, before + 1, read)
        }
        Logged::Passed(passage) => {
            changed_in_passage(alloc, reader, trails, below, earlier, before, passage)
        }
    }
}

// The first read of the passage that is met and has another value now; `before` reads come before the passage. Each of its
// reads found that one mapping has no violation.
fn changed_in_passage<'a, F: Facts>(
    alloc: Global,
    reader: &Reader<'_>,
    trails: &[Trail<'_>],
    below: &'a F,
    earlier: &mut EarlierView<'a, F>,
    before: u64,
    passage: &Passage,
) -> Result<Option<Changed>, Memory>
    requires sees { SeesFirst (F.tuples below.now) (map change_of reader.now.own.now)
        earlier.old.seen earlier.old.view }
    requires fits { before + (passage.now.end - passage.now.start) < 2 ^ 64 }
    ensures sees { OnOk result (SeesFirst (F.tuples below.now)
        (map change_of reader.now.own.now) earlier.new.seen earlier.new.view) }
    ensures first { IfOk result (λ found. option_map changed_of found ≡
        changed_from reader.now trails.now (F.tuples below.now) (before + 1)
        (passing passage.now.start (passage.now.end - passage.now.start) passage.now.own)) }
{
    let mut number = before;
    for mapping in passage.start..passage.end {
        number += 1;
        let read = finds_none(mapping, passage.own);
        let found = changed_read(alloc, reader, trails, below, earlier, number, &read)?;
        if let Some(changed) = found {
            return Ok(Some(changed));
        }
    }
    Ok(None)
}

// The read of this number, if it is met and has another value now.
fn changed_read<'a, F: Facts>(
    alloc: Global,
    reader: &Reader<'_>,
    trails: &[Trail<'_>],
    below: &'a F,
    earlier: &mut EarlierView<'a, F>,
    number: u64,
    read: &LoggedRead,
) -> Result<Option<Changed>, Memory>
    requires sees { SeesFirst (F.tuples below.now) (map change_of reader.now.own.now)
        earlier.old.seen earlier.old.view }
    ensures sees { OnOk result (SeesFirst (F.tuples below.now)
        (map change_of reader.now.own.now) earlier.new.seen earlier.new.view) }
    ensures first { IfOk result (λ found. option_map changed_of found ≡
        changed_from reader.now trails.now (F.tuples below.now) number (read_of read.now ∷ [])) }
{
    if !reader.is_met(trails, read) {
        return Ok(None);
    }
    let count = standing_then(read.own, reader.own);
    see(
        alloc,
        &mut earlier.view,
        below,
        reader.own,
        earlier.seen,
        count,
    )?;
    earlier.seen = count;
    let now = earlier
        .view
        .eval(&read.query, reader.mappings, reader.direction, alloc)?;
    if now.is_same(&read.answer) {
        return Ok(None);
    }
    Ok(Some(Changed {
        number,
        read: read.copy(alloc)?,
        now,
    }))
}

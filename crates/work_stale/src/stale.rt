//! The first entry by which a step is stale.
ghost use Rattle.std.specs.List.{list_any};
ghost use Rattle.std.specs.Prelude.{◌≡◌, map};
ghost use Rattle.base_types.specs.Meanings.{rule_of, change_of};
ghost use Rattle.core_entries.specs.Meanings.{entry_of};
ghost use Rattle.chase_query.specs.Meanings.{reads_in};
ghost use Rattle.def_steps.specs.Chase.{relation_of};
ghost use Rattle.work_stale.specs.Shown.{lost_in, restarted_in, trail_by};
ghost use Rattle.work_stale.specs.Stale.{mentioned_by, any_of, shows_below, adds_below, takes_below, is_stale_by, stale_by as stale_by_def};

use crate::shown::{causes_in, lost_in, reader_of, restarts, shown_by, takes_away};
use base_types::{MappingList, Write};
use chase_query::Logged;
use core_entries::Entry;

/// The number, from 1, of the first entry after the first `since` by which a step of the update with these reads is stale. Such
/// an entry restarts the update; or it shows, or takes away, a write by a lower update in a relation that a read mentions.
pub fn stale_by(
    mappings: &MappingList,
    entries: &[Entry],
    update: u32,
    reads: &[Logged],
    since: u64,
) -> Option<u64>
    ensures first { result ≡ stale_by_def (map rule_of mappings.now.items) update
        (reads_in reads.now) (map entry_of entries.now) since }
{
    if since > entries.len() as u64 {
        return None;
    }
    for place in since as usize..entries.len() {
        let entry = &entries[place];
        if makes_stale(mappings, &entries[..place], entry, update, reads) {
            return Some(place as u64 + 1);
        }
    }
    None
}

// Whether the entry, which comes after `before`, makes the step stale.
fn makes_stale(
    mappings: &MappingList,
    before: &[Entry],
    entry: &Entry,
    update: u32,
    reads: &[Logged],
) -> bool
    ensures { result ≡ is_stale_by (mentioned_by mappings.now reads.now) update
        (map entry_of before.now) (entry_of entry.now) }
{
    restarts(entry, update)
        || adds_below(mappings, entry, update, reads)
        || takes_below(mappings, before, entry, update, reads)
}

// Whether the entry shows a write, by a lower update, in a relation that is read.
fn adds_below(mappings: &MappingList, entry: &Entry, update: u32, reads: &[Logged]) -> bool
    ensures { result
        ≡ adds_below (mentioned_by mappings.now reads.now) update (entry_of entry.now) }
{
    match entry {
        Entry::Stepped {
            update: by,
            writes,
            ..
        } => *by < update && any_read(mappings, writes.as_slice(), reads),
        _ => false,
    }
}

// Whether the entry takes away a write, by a lower update, in a relation that is read.
fn takes_below(
    mappings: &MappingList,
    before: &[Entry],
    entry: &Entry,
    update: u32,
    reads: &[Logged],
) -> bool
    ensures { result ≡ takes_below (mentioned_by mappings.now reads.now) update
        (map entry_of before.now) (entry_of entry.now) }
{
    loses_below(mappings, before, entry, update, reads)
        || restarts_below(mappings, before, entry, update, reads)
}

// Whether such a write is lost because the entry's own update ends spent or refused, or is withdrawn.
fn loses_below(
    mappings: &MappingList,
    before: &[Entry],
    entry: &Entry,
    update: u32,
    reads: &[Logged],
) -> bool
    ensures { result ≡ list_any (shows_below (mentioned_by mappings.now reads.now) update
        (map entry_of before.now)) (lost_in (entry_of entry.now)) }
{
    match lost_in(entry) {
        Some(by) => showed_below(mappings, before, by, update, reads),
        None => false,
    }
}

// Whether such a write is lost because its update is restarted.
fn restarts_below(
    mappings: &MappingList,
    before: &[Entry],
    entry: &Entry,
    update: u32,
    reads: &[Logged],
) -> bool
    ensures { result ≡ list_any (shows_below (mentioned_by mappings.now reads.now) update
        (map entry_of before.now)) (restarted_in (entry_of entry.now)) }
{
    causes_in(entry).iter().any(|cause| showed_below(
        mappings,
        before,
        reader_of(cause),
        update,
        reads,
    ))
}

// Whether the update `by` is lower than `update`, and shows a write in a relation that is read.
fn showed_below(
    mappings: &MappingList,
    before: &[Entry],
    by: u32,
    update: u32,
    reads: &[Logged],
) -> bool
    ensures { result ≡ shows_below (mentioned_by mappings.now reads.now) update
        (map entry_of before.now) by }
{
    by < update && showed(mappings, before, by, reads)
}

// Whether the update `by` shows such a write after these entries. They are searched from the last back to the one that took the
// update's earlier writes away.
fn showed(mappings: &MappingList, before: &[Entry], by: u32, reads: &[Logged]) -> bool
    ensures { result ≡ any_of (mentioned_by mappings.now reads.now)
        (trail_by by (map entry_of before.now)) }
{
    for place in (0..before.len()).rev() {
        let entry = &before[place];
        if takes_away(entry, by) {
            return false;
        }
        if any_read(mappings, shown_by(entry, by), reads) {
            return true;
        }
    }
    false
}

// Whether one of the writes is in a relation that is read.
fn any_read(mappings: &MappingList, writes: &[Write], reads: &[Logged]) -> bool
    ensures { result ≡ any_of (mentioned_by mappings.now reads.now) (map change_of writes.now) }
{
    writes
        .iter()
        .any(|write| is_read(mappings, written_relation(write), reads))
}

// Whether one of the reads mentions the relation.
fn is_read(mappings: &MappingList, relation: u16, reads: &[Logged]) -> bool
    ensures { result ≡ mentioned_by mappings.now reads.now relation }
{
    reads.iter().any(|entry| entry.mentions(mappings, relation))
}

// The relation of the write.
fn written_relation(write: &Write) -> u16
    ensures { result ≡ relation_of (change_of write.now) }
{
    match write {
        Write::Insert(tuple) => tuple.relation,
        Write::Delete(tuple) => tuple.relation,
    }
}

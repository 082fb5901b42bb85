//! `log`: what was done, when and by whom.

use crate::entries::{entries_of, entry_line, last_number};
use crate::log_objects::{entry_objects, record_objects};
use base_types::Memory;
use std::alloc::Global;
use ws_fault::{Refusal, Status};
use ws_print::Lines;
use ws_reply::{Context, Reply, refused, seen_objects, seen_text};
use ws_space::{Recorded, Space};

// From a record with more than `MOST` lines, only the first `FIRST` are printed.
pub(crate) const MOST: usize = 6;

pub(crate) const FIRST: usize = 3;

/// The records, or the last `limit` of them.
pub(crate) fn log(
    alloc: Global,
    space: &Space,
    context: &Context<'_>,
    limit: Option<u32>,
) -> Result<Reply, Memory> {
    let all = space.records.len();
    let skipped = match limit {
        Some(limit) => all.saturating_sub(limit as usize),
        None => 0,
    };
    let records = space.records.get(skipped..).unwrap_or(&[]);
    if context.is_json() {
        return seen_objects(alloc, Status::Done, entry_objects(alloc, space, records)?);
    }
    let mut lines = Lines::new(alloc);
    add_folded(alloc, &mut lines, space, records);
    add_records(alloc, &mut lines, space, records)?;
    Ok(seen_text(Status::Done, lines.done()?))
}

// Adds a line that records were folded, if some were.
fn add_folded(alloc: Global, lines: &mut Lines, space: &Space, records: &[Recorded]) {
    let folded = space.folded;
    if folded == 0 {
        return;
    }
    if records.is_empty() {
        let at = space.at();
        lines.made(format!(in alloc; "nothing since the fold at {at}"));
        return;
    }
    lines.made(format!(in alloc; "what came before was folded, up to {folded}"));
}

/// The records after the one with this number, or the first `limit` of them. It is refused if that record was folded or is not
/// there.
pub(crate) fn log_since(
    alloc: Global,
    space: &Space,
    context: &Context<'_>,
    since: u32,
    limit: Option<u32>,
) -> Result<Reply, Refusal> {
    refuse_unknown(alloc, space, since)?;
    let skipped = since.saturating_sub(space.first) as usize;
    let after = space.records.get(skipped..).unwrap_or(&[]);
    let records = match limit {
        Some(limit) => after.get(..limit as usize).unwrap_or(after),
        None => after,
    };
    if context.is_json() {
        let objects = record_objects(alloc, space, records)?;
        return Ok(seen_objects(alloc, Status::Done, objects)?);
    }
    let mut lines = Lines::new(alloc);
    add_records(alloc, &mut lines, space, records)?;
    if lines.is_empty() {
        lines.made(format!(in alloc; "nothing since record {since}"));
    }
    Ok(seen_text(Status::Done, lines.done()?))
}

fn refuse_unknown(alloc: Global, space: &Space, since: u32) -> Result<(), Refusal> {
    let at = space.at();
    if at < since {
        let words = format!(in alloc; "the log has no record {since}")?;
        let hint = format!(in alloc; "it is at {at}")?;
        return Err(Refusal::Fault(refused(alloc, words, Some(hint))));
    }
    if since < space.first {
        let words = format!(in alloc; "record {since} was folded")?;
        let hint = String::from_str(alloc, "look again: status")?;
        return Err(Refusal::Fault(refused(alloc, words, Some(hint))));
    }
    Ok(())
}

fn add_records(
    alloc: Global,
    lines: &mut Lines,
    space: &Space,
    records: &[Recorded],
) -> Result<(), Memory> {
    for recorded in records {
        let count = recorded.record.lines.len();
        let told = if count <= MOST { MOST } else { FIRST };
        for entry in entries_of(alloc, space, None, recorded, told)?.iter() {
            lines.made(entry_line(alloc, entry));
        }
        if MOST < count {
            lines.made(rest_line(alloc, recorded));
        }
    }
    Ok(())
}

// The line for the number of further lines of a record.
fn rest_line(alloc: Global, recorded: &Recorded) -> Result<String, Memory> {
    let at = recorded.at;
    let more = recorded.record.lines.len().saturating_sub(FIRST);
    match last_number(recorded) {
        Some(last) => Ok(format!(in alloc; "{at}  .. and {more} more lines, up to {last}")?),
        None => Ok(format!(in alloc; "{at}  .. and {more} more lines")?),
    }
}

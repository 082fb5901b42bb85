//! `status`: what the workspace has.

use crate::counts::{Counts, counted};
use crate::status_object::status_object;
use base_types::Memory;
use std::alloc::{AllocError, Global};
use std::fmt::Write;
use ws_fault::Status;
use ws_print::{Lines, Text, add_count, add_escaped, add_form};
use ws_reply::{Context, Reply, seen_object, seen_text};
use ws_space::Space;
use ws_written::Relation;

// The greatest number of waiting updates that are listed.
const WAITING: usize = 10;

/// What the workspace has: relations, mappings, the updates that wait, the last update and the last record.
pub(crate) fn status(alloc: Global, space: &Space, context: &Context<'_>) -> Result<Reply, Memory> {
    let counts = counted(alloc, space)?;
    reply(alloc, space, context, &counts)
}

fn reply(
    alloc: Global,
    space: &Space,
    context: &Context<'_>,
    counts: &Counts,
) -> Result<Reply, Memory> {
    if context.is_json() {
        let object = status_object(alloc, space, context, counts);
        return seen_object(alloc, Status::Done, object);
    }
    Ok(seen_text(Status::Done, lines(alloc, space, context, counts)?))
}

fn lines(
    alloc: Global,
    space: &Space,
    context: &Context<'_>,
    counts: &Counts,
) -> Result<Vec<String>, Memory> {
    let mut lines = Lines::new(alloc);
    add_relations(alloc, &mut lines, space, context, counts);
    add_mappings(alloc, &mut lines, space, counts);
    add_waiting(alloc, &mut lines, space, counts);
    lines.made(last_line(alloc, space));
    add_next(alloc, &mut lines, counts);
    Ok(lines.done()?)
}

/// The last part of a path.
pub(crate) fn last_part(path: &str) -> &str {
    match path.rsplit_once('/') {
        Some((_, last)) => last,
        None => path,
    }
}

fn add_relations(
    alloc: Global,
    lines: &mut Lines,
    space: &Space,
    context: &Context<'_>,
    counts: &Counts,
) {
    lines.made(first_line(alloc, space, context, counts));
    for (place, relation) in space.relations.iter().enumerate() {
        lines.made(relation_line(alloc, relation, counts.rows_at(place)));
    }
}

// `FILE: N tuples in K relations, U unknowns`.
fn first_line(
    alloc: Global,
    space: &Space,
    context: &Context<'_>,
    counts: &Counts,
) -> Result<String, AllocError> {
    let mut line = Text::new(alloc);
    add_escaped(&mut line, last_part(context.file));
    line.push_str(": ");
    add_count(&mut line, total(counts.rows.as_slice()), "tuple");
    line.push_str(" in ");
    add_count(&mut line, space.relations.len(), "relation");
    line.push_str(", ");
    add_count(&mut line, counts.unknowns, "unknown");
    line.done()
}

fn total(counts: &[usize]) -> usize {
    let mut total = 0usize;
    for count in counts {
        total = total.saturating_add(*count);
    }
    total
}

fn relation_line(alloc: Global, relation: &Relation, count: usize) -> Result<String, AllocError> {
    let mut line = Text::from_str(alloc, "  ");
    add_form(&mut line, relation);
    write!(line, " {count}");
    line.done()
}

fn add_mappings(alloc: Global, lines: &mut Lines, space: &Space, counts: &Counts) {
    for mapping in space.state.in_force() {
        let mut line = Text::from_str(alloc, "in force: ");
        line.made(space.rule_text(alloc, *mapping));
        lines.made(line.done());
    }
    for (mapping, count) in counts.proposed.iter() {
        lines.made(proposed_line(alloc, space, *mapping, *count));
    }
}

fn proposed_line(
    alloc: Global,
    space: &Space,
    mapping: u16,
    count: usize,
) -> Result<String, Memory> {
    let mut line = Text::from_str(alloc, "proposed: ");
    line.made(space.rule_text(alloc, mapping));
    if count == 0 {
        let name = space.mapping_name(mapping);
        write!(line, "  (no violations: adopt {name})");
        return Ok(line.done()?);
    }
    line.push_str("  (");
    add_count(&mut line, count, "violation");
    line.push(')');
    Ok(line.done()?)
}

fn add_waiting(alloc: Global, lines: &mut Lines, space: &Space, counts: &Counts) {
    for number in counts.waiting.iter().take(WAITING) {
        lines.made(waiting_line(alloc, space, *number));
    }
    if WAITING < counts.waiting.len() {
        let more = counts.waiting.len().saturating_sub(WAITING);
        lines.made(format!(in alloc; "waits: and {more} more"));
    }
}

fn waiting_line(alloc: Global, space: &Space, number: u32) -> Result<String, Memory> {
    let curator = space.curator_of(number);
    let line = space.update_text(alloc, number)?;
    Ok(format!(in alloc; "waits: {number} {curator}: {line}")?)
}

// `last update N, at record R; K stand since ..`.
fn last_line(alloc: Global, space: &Space) -> Result<String, Memory> {
    let last = space.state.last();
    let at = space.at();
    let mut line = Text::new(alloc);
    write!(line, "last update {last}, at record {at}; ");
    let count = space.state.order().len();
    if count == 1 {
        line.push_str("1 stands");
    } else {
        write!(line, "{count} stand");
    }
    let folded = space.folded;
    if folded == 0 {
        line.push_str(" since the beginning");
    } else {
        write!(line, " since the fold at {folded}");
    }
    Ok(line.done()?)
}

fn add_next(alloc: Global, lines: &mut Lines, counts: &Counts) {
    if !counts.waiting.is_empty() {
        lines.push_str("next: questions");
    } else if counts.has_violations() {
        lines.push_str("next: violations");
    }
}

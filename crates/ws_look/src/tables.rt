//! `show`: tables, and the rows that atoms match.

use crate::rows::{alike, matched, uncertain};
use crate::table_told::{lines, objects};
use crate::waiting::waiting_for;
use base_types::{Memory, Tuple};
use std::alloc::Global;
use ws_command::{Paging, Shown};
use ws_fault::Status;
use ws_reply::{Context, Reply, seen_objects, seen_text};
use ws_space::Space;
use ws_written::{Fact, Relation};

/// A table to print: some of its rows, the number of all, and the updates that wait with tuples of it.
#[derive(Drop)]
pub(crate) struct Told<'a> {
    pub relation: &'a Relation,
    pub rows: Vec<Fact>,
    pub count: usize,
    pub waiting: Vec<u32>,
    pub is_whole: bool,
}

/// The tables, or the rows that the atoms match; from each, the rows that `paging` selects.
pub(crate) fn show(
    alloc: Global,
    space: &Space,
    context: &Context<'_>,
    shown: &[Shown],
    paging: &Paging,
) -> Result<Reply, Memory> {
    let mut tables = Vec::new(alloc);
    if shown.is_empty() {
        add_all(alloc, space, &mut tables, paging)?;
    } else {
        add_shown(alloc, space, &mut tables, shown, paging)?;
    }
    reply(alloc, space, context, tables.as_slice(), paging)
}

fn reply(
    alloc: Global,
    space: &Space,
    context: &Context<'_>,
    tables: &[Told<'_>],
    paging: &Paging,
) -> Result<Reply, Memory> {
    if context.is_json() {
        return seen_objects(alloc, Status::Done, objects(alloc, tables, paging)?);
    }
    Ok(seen_text(Status::Done, lines(alloc, space, tables, paging)?))
}

// Adds all tables. If only some rows are selected, tables without such rows are left out.
fn add_all<'a>(
    alloc: Global,
    space: &'a Space,
    tables: &mut Vec<Told<'a>>,
    paging: &Paging,
) -> Result<(), Memory> {
    let hides_empty = paging.unknowns || paging.like.is_some();
    for (number, relation) in space.relations.iter().enumerate() {
        let number = u32::try_from(number).unwrap_or(u32::MAX);
        let rows = uncertain(space.rows(alloc, number)?, paging);
        let rows = alike(alloc, space, rows, paging)?;
        if !rows.is_empty() || !hides_empty {
            tables.push(told_of(alloc, space, number, relation, rows, true, paging)?)?;
        }
    }
    Ok(())
}

fn add_shown<'a>(
    alloc: Global,
    space: &'a Space,
    tables: &mut Vec<Told<'a>>,
    shown: &[Shown],
    paging: &Paging,
) -> Result<(), Memory> {
    for what in shown {
        match what {
            Shown::Table(number) => {
                let rows = space.rows(alloc, *number)?;
                add_named(alloc, space, tables, *number, rows, true, paging)?;
            }
            Shown::Rows(atom) => {
                let rows = matched(alloc, space, atom)?;
                add_named(alloc, space, tables, atom.relation, rows, false, paging)?;
            }
        }
    }
    Ok(())
}

// Adds the rows of a named relation, unless only rows with unknowns are wanted and there are none.
fn add_named<'a>(
    alloc: Global,
    space: &'a Space,
    tables: &mut Vec<Told<'a>>,
    number: u32,
    rows: Vec<Tuple>,
    is_whole: bool,
    paging: &Paging,
) -> Result<(), Memory> {
    let Some(relation) = space.relations.get(number as usize) else {
        return Ok(());
    };
    let rows = uncertain(rows, paging);
    if rows.is_empty() && paging.unknowns {
        return Ok(());
    }
    let rows = alike(alloc, space, rows, paging)?;
    tables.push(told_of(alloc, space, number, relation, rows, is_whole, paging)?)?;
    Ok(())
}

/// The place of the first row to print.
pub(crate) fn first_of(paging: &Paging) -> usize {
    (paging.from.unwrap_or(1) as usize).saturating_sub(1)
}

fn told_of<'a>(
    alloc: Global,
    space: &Space,
    number: u32,
    relation: &'a Relation,
    tuples: Vec<Tuple>,
    is_whole: bool,
    paging: &Paging,
) -> Result<Told<'a>, Memory> {
    let waiting = waiting_for(alloc, space, number)?;
    Ok(Told {
        relation,
        rows: page(alloc, space, tuples.as_slice(), paging)?,
        count: tuples.len(),
        waiting,
        is_whole,
    })
}

// The tuples of the page, in the said form.
fn page(
    alloc: Global,
    space: &Space,
    tuples: &[Tuple],
    paging: &Paging,
) -> Result<Vec<Fact>, Memory> {
    let limit = match paging.limit {
        Some(limit) => limit as usize,
        None => usize::MAX,
    };
    let mut rows = Vec::new(alloc);
    for tuple in tuples.iter().skip(first_of(paging)).take(limit) {
        rows.push(space.shown(alloc, tuple)?)?;
    }
    Ok(rows)
}

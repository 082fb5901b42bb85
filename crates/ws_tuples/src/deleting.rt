//! `delete`.

use crate::fitting::fitting_facts;
use crate::names::{check_fact, is_there};
use crate::single::single;
use base_types::Tuple;
use def_memory::Memory;
use std::alloc::Global;
use std::collections::BTreeSet;
use ws_command::{Bounds, Pattern};
use ws_fault::{Refusal, Status};
use ws_print::{Lines, Text, add_pattern};
use ws_question::near_texts;
use ws_report::{Done, Note, Report, facts_text};
use ws_space::{Space, copy_fact};
use ws_written::{Fact, Update};

/// Deletes the tuples that the patterns stand for. It is refused if one of them names an unknown that is not there.
pub fn delete(
    alloc: Global,
    space: &mut Space,
    patterns: &[Pattern],
    bounds: &Bounds,
) -> Result<Done, Refusal> {
    let facts = facts_of(alloc, space, patterns)?;
    if facts.is_empty() {
        let line = patterns_line(alloc, space, patterns)?;
        return Ok(Done::nothing(alloc, "not there", line));
    }
    let absent = absent_of(alloc, space, facts.as_slice())?;
    if absent.len() == facts.len() {
        return not_there(alloc, space, facts.as_slice());
    }
    let notes = absent_notes(alloc, space, absent.as_slice())?;
    let done = single(alloc, space, Update::Delete(facts), bounds)?;
    with_notes(done, notes)
}

// The change with these hints after its own.
fn with_notes(done: Done, notes: Vec<Note>) -> Result<Done, Refusal> {
    let mut done = done;
    let mut notes = notes;
    match done.report.notes.append(&mut notes) {
        Ok(()) => Ok(done),
        Err(_) => Err(Refusal::Memory),
    }
}

// The hint that tuples were not there; none if there are none.
fn absent_notes(alloc: Global, space: &Space, absent: &[Fact]) -> Result<Vec<Note>, Memory> {
    let mut notes = Vec::new(alloc);
    if let [_, ..] = absent {
        let texts = facts_text(alloc, space, absent)?;
        notes.push(Note::of(alloc, format!(in alloc; "{texts} was not there")?))?;
    }
    Ok(notes)
}

// Whether one of the patterns has a `_`.
fn has_any(patterns: &[Pattern]) -> bool {
    for pattern in patterns {
        for value in pattern.values.iter() {
            if value.is_none() {
                return true;
            }
        }
    }
    false
}

// The tuples that the patterns stand for, in order. If one has a `_`, no tuple occurs twice.
fn facts_of(alloc: Global, space: &Space, patterns: &[Pattern]) -> Result<Vec<Fact>, Refusal> {
    let mut facts = Vec::new(alloc);
    for pattern in patterns {
        let mut fitting = fitting_facts(alloc, space, pattern)?;
        facts.append(&mut fitting)?;
    }
    if has_any(patterns) {
        return Ok(each_once(alloc, space, facts)?);
    }
    Ok(facts)
}

// The tuples without repetition, each at its first place.
fn each_once(alloc: Global, space: &Space, facts: Vec<Fact>) -> Result<Vec<Fact>, Memory> {
    let mut seen: BTreeSet<Tuple> = BTreeSet::new(alloc);
    let mut distinct = Vec::new(alloc);
    for fact in facts {
        if seen.insert(space.tuple(alloc, &fact)?)? {
            distinct.push(fact)?;
        }
    }
    Ok(distinct)
}

fn check_facts(alloc: Global, space: &Space, facts: &[Fact]) -> Result<(), Refusal> {
    for fact in facts {
        check_fact(alloc, space, fact)?;
    }
    Ok(())
}

// The tuples that are not there. It is refused if one of the tuples names an unknown that is not there.
fn absent_of(alloc: Global, space: &Space, facts: &[Fact]) -> Result<Vec<Fact>, Refusal> {
    check_facts(alloc, space, facts)?;
    let mut absent = Vec::new(alloc);
    for fact in facts {
        if !is_there(alloc, space, fact)? {
            absent.push(copy_fact(alloc, fact)?)?;
        }
    }
    Ok(absent)
}

fn patterns_line(alloc: Global, space: &Space, patterns: &[Pattern]) -> Result<String, Memory> {
    let mut line = Text::from_str(alloc, "delete ");
    for (place, pattern) in patterns.iter().enumerate() {
        if 0 < place {
            line.push_str(", ");
        }
        add_pattern(&mut line, space.relations.as_slice(), pattern);
    }
    Ok(line.done()?)
}

// The outcome if none of the tuples is there. It lists tuples that resemble the first one.
fn not_there(alloc: Global, space: &Space, facts: &[Fact]) -> Result<Done, Refusal> {
    let texts = facts_text(alloc, space, facts)?;
    let line = format!(in alloc; "delete {texts}")?;
    let also = near_lines(alloc, space, facts.first())?;
    let mut report = Report::of(alloc, Status::Nothing, "not there", line);
    report.also = also;
    Ok(Done::unrecorded(alloc, report))
}

/// The lines for the tuples that resemble one that is not there.
pub(crate) fn near_lines(
    alloc: Global,
    space: &Space,
    fact: Option<&Fact>,
) -> Result<Vec<String>, Memory> {
    let mut lines = Lines::new(alloc);
    if let Some(fact) = fact {
        for text in near_texts(alloc, space, fact)?.iter() {
            lines.made(format!(in alloc; "there is {text}"));
        }
    }
    Ok(lines.done()?)
}

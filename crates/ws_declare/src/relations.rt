//! `relation`.

use crate::speaking::is_spoken_of;
use def_memory::Memory;
use std::alloc::{AllocError, Global};
use ws_fault::{Refusal, Status};
use ws_grammar::place_of;
use ws_print::{Lines, Text, add_form};
use ws_report::{Done, Report, recorded, refuse, told_line};
use ws_space::Space;
use ws_written::{Line, Relation};

/// The greatest number of relations in a workspace.
const RELATIONS: usize = 100;

/// Declares a relation, or declares one again if its columns stay or nothing mentions it. It is refused if something mentions it,
/// if another name differs only in capitals, or if there are too many relations.
pub fn declare_relation(
    alloc: Global,
    space: &mut Space,
    relation: Relation,
) -> Result<Done, Refusal> {
    let is_new = check_relation(alloc, space, &relation)?;
    let next = next_of(alloc, &relation)?;
    let line = Line::Relation(relation);
    if !is_new {
        return there_already(alloc, space, &line);
    }
    let report = declared(alloc, space, &line, next);
    recorded(alloc, report, line)
}

// Whether the relation is still to be declared in this form. It is refused if that is not possible.
fn check_relation(alloc: Global, space: &Space, relation: &Relation) -> Result<bool, Refusal> {
    let Some(place) = place_of(space.relations.as_slice(), relation.name.as_str()) else {
        check_new(alloc, space, relation.name.as_str())?;
        return Ok(true);
    };
    if is_declared(space, place, relation) {
        return Ok(false);
    }
    check_unspoken(alloc, space, place, relation)?;
    Ok(true)
}

fn there_already(alloc: Global, space: &Space, line: &Line) -> Result<Done, Refusal> {
    let text = told_line(alloc, space, line)?;
    Ok(Done::nothing(alloc, "there already", text))
}

fn declared(
    alloc: Global,
    space: &mut Space,
    line: &Line,
    next: Vec<String>,
) -> Result<Report, Refusal> {
    space.take(alloc, line)?;
    let text = told_line(alloc, space, line)?;
    let mut report = Report::of(alloc, Status::Done, "done", text);
    report.next = next;
    Ok(report)
}

fn has_same_columns(one: &Relation, other: &Relation) -> bool {
    if one.columns.len() != other.columns.len() {
        return false;
    }
    for (place, column) in one.columns.iter().enumerate() {
        match other.columns.get(place) {
            Some(other) if other.name.as_str() == column.name.as_str() => {}
            _ => return false,
        }
    }
    true
}

// Whether the two relations, which have the same columns, have the same key.
fn has_same_key(one: &Relation, other: &Relation) -> bool {
    for (place, column) in one.columns.iter().enumerate() {
        match other.columns.get(place) {
            Some(other) if other.key == column.key => {}
            _ => return false,
        }
    }
    true
}

fn is_declared(space: &Space, place: usize, relation: &Relation) -> bool {
    match space.relations.get(place) {
        Some(declared) => {
            has_same_columns(declared, relation) && has_same_key(declared, relation)
        }
        None => false,
    }
}

// Refuses new columns for a declared relation that something mentions.
fn check_unspoken(
    alloc: Global,
    space: &Space,
    place: usize,
    relation: &Relation,
) -> Result<(), Refusal> {
    let Some(declared) = space.relations.get(place) else {
        return Ok(());
    };
    if has_same_columns(declared, relation) || !is_spoken_of(space, place) {
        return Ok(());
    }
    let mut words = Text::from_str(alloc, "there is a relation ");
    add_form(&mut words, declared);
    let words = words.done()?;
    let hint = "its columns can change only while no tuple, update or mapping speaks of it";
    refuse(alloc, words.as_str(), hint)
}

// Refuses a new relation if one has its name, ignoring capitals, or if there are too many.
fn check_new(alloc: Global, space: &Space, name: &str) -> Result<(), Refusal> {
    let lower = name.to_lowercase(alloc)?;
    for other in space.relations.iter() {
        if is_lower(alloc, other.name.as_str(), lower.as_str())? {
            return refuse_twin(alloc, other.name.as_str());
        }
    }
    if RELATIONS <= space.relations.len() {
        return refuse(alloc, "there are 100 relations, which is the limit", "");
    }
    Ok(())
}

// Refuses a new relation whose name differs from this one only in capitals.
fn refuse_twin(alloc: Global, name: &str) -> Result<(), Refusal> {
    let words = format!(in alloc;
        "there is a relation {name}; names differ by more than capitals"
    )?;
    refuse(alloc, words.as_str(), "")
}

fn is_lower(alloc: Global, name: &str, lower: &str) -> Result<bool, AllocError> {
    let name = name.to_lowercase(alloc)?;
    Ok(name.as_str() == lower)
}

// The commands that fill the relation.
fn next_of(alloc: Global, relation: &Relation) -> Result<Vec<String>, Memory> {
    let name = relation.name.as_str();
    let mut insert = Text::new(alloc);
    write!(insert, "insert {name}(");
    for (place, column) in relation.columns.iter().enumerate() {
        insert.push_str(if place == 0 { "\"" } else { ", \"" });
        insert.push_str(column.name.as_str());
        insert.push('"');
    }
    insert.push(')');
    let insert = insert.done()?;
    let mut next = Lines::new(alloc);
    next.push(insert);
    next.made(format!(in alloc; "load {name} FILE.csv"));
    Ok(next.done()?)
}

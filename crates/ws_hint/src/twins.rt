//! Tuples that may be the same as an inserted one, and tuples with the same key.

use crate::vague::VagueColumn;
use base_types::{Column, Memory, Null, Tuple, Value};
use chase_match::Walk;
use chase_unifier::is_more_specific;
use std::alloc::Global;
use std::collections::BTreeSet;
use ws_print::{Text, add_unknown, add_value};
use ws_question::inner_text;
use ws_report::Note;
use ws_space::{Space, is_unknown, unknown_of};

/// The greatest number of twins that get a hint.
const TWINS: usize = 3;

/// The twins of the tuple: tuples with unknowns that share a value with it, and that become it if their unknowns are filled.
pub(crate) fn twins_of(
    alloc: Global,
    columns: &[VagueColumn],
    tuple: &Tuple,
) -> Result<BTreeSet<Tuple>, Memory> {
    let mut twins = BTreeSet::new(alloc);
    for (place, value) in tuple.values.as_slice().iter().enumerate() {
        if is_unknown(value) {
            continue;
        }
        if let Some(column) = columns.get(place) {
            add_vague(&mut twins, column, value, tuple)?;
        }
    }
    Ok(twins)
}

// Adds the twins that have this value in the column.
fn add_vague(
    twins: &mut BTreeSet<Tuple>,
    column: &VagueColumn,
    value: &Value,
    tuple: &Tuple,
) -> Result<(), Memory> {
    for vague in column.with(value) {
        if vague != tuple && is_more_specific(vague, tuple) {
            twins.insert(vague.share()?)?;
        }
    }
    Ok(())
}

// `replace ?U.P with VALUE`.
fn filling(alloc: Global, space: &Space, null: Null, value: &Value) -> Result<String, Memory> {
    let names = space.state.names();
    let mut text = Text::from_str(alloc, "replace ");
    add_unknown(&mut text, unknown_of(names.name_of(null)));
    text.push_str(" with ");
    add_value(&mut text, &space.value(alloc, &names.value(alloc, value)?)?);
    Ok(text.done()?)
}

// The commands that turn the twin into the tuple, one for each of its unknowns.
fn fillings(
    alloc: Global,
    space: &Space,
    twin: &Tuple,
    tuple: &Tuple,
) -> Result<Vec<String>, Memory> {
    let mut commands = Vec::new(alloc);
    for (place, old) in twin.values.as_slice().iter().enumerate() {
        let Some(new) = tuple.values.get(place) else {
            continue;
        };
        if let Value::Null(null) = old {
            if old != new && is_first(twin, place, old) {
                commands.push(filling(alloc, space, *null, new)?)?;
            }
        }
    }
    Ok(commands)
}

// Whether no earlier place of the tuple has the same value.
fn is_first(tuple: &Tuple, place: usize, value: &Value) -> bool {
    for other in tuple.values.as_slice().iter().take(place) {
        if other == value {
            return false;
        }
    }
    true
}

/// Adds a hint for each of the first twins.
pub(crate) fn add_twins(
    alloc: Global,
    space: &Space,
    twins: &BTreeSet<Tuple>,
    tuple: &Tuple,
    notes: &mut Vec<Note>,
) -> Result<(), Memory> {
    for twin in twins.iter().take(TWINS) {
        let text = inner_text(alloc, space, twin)?;
        notes.push(Note {
            words: format!(in alloc; "{text} may be the same")?,
            commands: fillings(alloc, space, twin, tuple)?,
        })?;
    }
    Ok(())
}

// The places of the key's columns.
fn key_places(alloc: Global, space: &Space, relation: u32) -> Result<Vec<usize>, Memory> {
    let mut places = Vec::new(alloc);
    if let Some(declared) = space.relations.get(relation as usize) {
        for (place, column) in declared.columns.iter().enumerate() {
            if column.key {
                places.push(place)?;
            }
        }
    }
    Ok(places)
}

fn has_same_key(one: &Tuple, other: &Tuple, key: &[usize]) -> bool {
    for place in key {
        if one.values.get(*place) != other.values.get(*place) {
            return false;
        }
    }
    true
}

// The first other tuple with the same key that is no twin.
fn same_key<'a>(
    space: &'a Space,
    twins: &BTreeSet<Tuple>,
    tuple: &Tuple,
    key: &[usize],
) -> Option<&'a Tuple> {
    let first = *key.first()?;
    let value = tuple.values.get(first)?;
    let number = u16::try_from(first).ok()?;
    let column = Some(Column { number, value });
    let mut walk = Walk::new(space.state.facts(), tuple.relation, column);
    for _ in 0..u64::MAX {
        let found = walk.next()?;
        if found != tuple && !twins.contains(found) && has_same_key(found, tuple, key) {
            return Some(found);
        }
    }
    None
}

// The names of the columns at these places, between commas.
fn column_names(
    alloc: Global,
    space: &Space,
    relation: u32,
    places: &[usize],
) -> Result<String, Memory> {
    let mut names = Text::new(alloc);
    let Some(declared) = space.relations.get(relation as usize) else {
        return Ok(names.done()?);
    };
    for place in places {
        if let Some(column) = declared.columns.get(*place) {
            if !names.is_empty() {
                names.push_str(", ");
            }
            names.push_str(column.name.as_str());
        }
    }
    Ok(names.done()?)
}

/// Adds a hint if another tuple that is no twin has the same key.
pub(crate) fn add_key(
    alloc: Global,
    space: &Space,
    twins: &BTreeSet<Tuple>,
    tuple: &Tuple,
    notes: &mut Vec<Note>,
) -> Result<(), Memory> {
    let relation = u32::from(tuple.relation);
    let key = key_places(alloc, space, relation)?;
    if let Some(same) = same_key(space, twins, tuple, key.as_slice()) {
        let names = column_names(alloc, space, relation, key.as_slice())?;
        let text = inner_text(alloc, space, same)?;
        let words = format!(in alloc; "the key {names} is there already: {text}")?;
        notes.push(Note::of(alloc, words))?;
    }
    Ok(())
}

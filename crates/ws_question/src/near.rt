//! Tuples that resemble one that is not there.

use crate::texts::inner_text;
use base_types::{Column, Memory, Tuple, Value};
use chase_match::Walk;
use std::alloc::Global;
use std::collections::BTreeMap;
use ws_fault::Nearest;
use ws_print::{Lines, Text, add_value};
use ws_space::Space;
use ws_written::{Fact, Value as Said};

// The greatest number of tuples that are returned.
const TOLD: usize = 3;

// The greatest number of tuples with one shared value that are looked at.
const LOOKED_AT: usize = 200;

/// At most three tuples that resemble this one, as commands take them: those that share most values with it. If none shares a
/// value, those whose first value is spelled like its first one.
pub fn near_texts(alloc: Global, space: &Space, fact: &Fact) -> Result<Vec<String>, Memory> {
    let mut counts: BTreeMap<Tuple, usize> = BTreeMap::new(alloc);
    count_all(alloc, &mut counts, space, fact)?;
    if counts.is_empty() {
        return alike(alloc, space, fact);
    }
    let found = most_first(alloc, &counts)?;
    let mut texts = Lines::new(alloc);
    for (_, tuple) in found.iter().take(TOLD) {
        texts.made(inner_text(alloc, space, tuple));
    }
    Ok(texts.done()?)
}

// Counts, for each tuple, the values that it shares with this one.
fn count_all(
    alloc: Global,
    counts: &mut BTreeMap<Tuple, usize>,
    space: &Space,
    fact: &Fact,
) -> Result<(), Memory> {
    for (column, value) in fact.values.iter().enumerate() {
        if let Some(value) = space.within_value(alloc, value)? {
            count_sharing(counts, space, fact.relation, column, &value)?;
        }
    }
    Ok(())
}

// The counted tuples, those with the greatest counts first, then in their own order. Each has its distance from the greatest
// number.
fn most_first(
    alloc: Global,
    counts: &BTreeMap<Tuple, usize>,
) -> Result<Vec<(usize, Tuple)>, Memory> {
    let mut found = Vec::new(alloc);
    for (tuple, count) in counts.iter() {
        found.push((usize::MAX.saturating_sub(*count), tuple.share()?))?;
    }
    found.sort()?;
    Ok(found)
}

// Counts the tuples that have the value in the column.
fn count_sharing(
    counts: &mut BTreeMap<Tuple, usize>,
    space: &Space,
    relation: u32,
    column: usize,
    value: &Value,
) -> Result<(), Memory> {
    let (Ok(relation), Ok(number)) = (u16::try_from(relation), u16::try_from(column)) else {
        return Ok(());
    };
    let column = Some(Column { number, value });
    let mut walk = Walk::new(space.state.facts(), relation, column);
    for _ in 0..LOOKED_AT {
        match walk.next() {
            Some(tuple) => count_one(counts, tuple)?,
            None => return Ok(()),
        }
    }
    Ok(())
}

// Adds one to the count of the tuple.
fn count_one(counts: &mut BTreeMap<Tuple, usize>, tuple: &Tuple) -> Result<(), Memory> {
    let count = match counts.get(tuple) {
        Some(count) => *count,
        None => 0,
    };
    match counts.insert(tuple.share()?, count.saturating_add(1)) {
        Ok(_) => Ok(()),
        Err(_) => Err(Memory),
    }
}

// The first tuples whose first value is spelled like this one's.
fn alike(alloc: Global, space: &Space, fact: &Fact) -> Result<Vec<String>, Memory> {
    let Some(first) = fact.values.first() else {
        return Ok(Vec::new(alloc));
    };
    let word = value_text(alloc, first)?;
    let rows = space.rows(alloc, fact.relation)?;
    let mut texts = Lines::new(alloc);
    add_alike(alloc, &mut texts, space, word.as_str(), rows.as_slice())?;
    Ok(texts.done()?)
}

// Adds the first of the tuples whose first value is spelled like the word.
fn add_alike(
    alloc: Global,
    texts: &mut Lines,
    space: &Space,
    word: &str,
    tuples: &[Tuple],
) -> Result<(), Memory> {
    for tuple in tuples {
        if texts.len() < TOLD && is_alike(alloc, space, word, tuple)? {
            texts.made(inner_text(alloc, space, tuple));
        }
    }
    Ok(())
}

fn is_alike(alloc: Global, space: &Space, word: &str, tuple: &Tuple) -> Result<bool, Memory> {
    let shown = space.shown(alloc, tuple)?;
    let Some(first) = shown.values.first() else {
        return Ok(false);
    };
    let spelled = value_text(alloc, first)?;
    let mut nearest = Nearest::to(alloc, word)?;
    nearest.consider(spelled.as_str())?;
    Ok(nearest.name().is_some())
}

fn value_text(alloc: Global, value: &Said) -> Result<String, Memory> {
    let mut text = Text::new(alloc);
    add_value(&mut text, value);
    Ok(text.done()?)
}

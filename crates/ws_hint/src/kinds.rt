//! Texts of digits in columns of numbers.

use base_types::{Memory, Tuple, Value};
use chase_match::Walk;
use std::alloc::Global;
use ws_report::{Note, named_text};
use ws_space::Space;

/// The counts of numbers and of texts in a column.
#[derive(Clone, Copy)]
pub(crate) struct Kinds {
    numbers: usize,
    texts: usize,
}

impl Kinds {
    fn count(&mut self, value: &Value) {
        match value {
            Value::Int(_) => self.numbers = self.numbers.saturating_add(1),
            Value::Word(_) => self.texts = self.texts.saturating_add(1),
            Value::Null(_) => {}
        }
    }

    // Whether the column has numbers, and exactly `texts` texts.
    fn are_numbers_with(&self, texts: usize) -> bool {
        0 < self.numbers && self.texts == texts
    }
}

/// The counts for each column of a relation.
pub(crate) fn kinds_of(alloc: Global, space: &Space, relation: u16) -> Result<Vec<Kinds>, Memory> {
    let mut kinds = Vec::new(alloc);
    if let Some(declared) = space.relations.get(usize::from(relation)) {
        for _ in declared.columns.iter() {
            kinds.push(Kinds {
                numbers: 0,
                texts: 0,
            })?;
        }
    }
    let mut walk = Walk::new(space.state.facts(), relation, None);
    for _ in 0..u64::MAX {
        let Some(tuple) = walk.next() else {
            break;
        };
        count_all(kinds.as_mut_slice(), tuple);
    }
    Ok(kinds)
}

fn count_all(kinds: &mut [Kinds], tuple: &Tuple) {
    for (place, column) in kinds.iter_mut().enumerate() {
        if let Some(value) = tuple.values.get(place) {
            column.count(value);
        }
    }
}

// Whether the bytes are digits, with `-` in front or not.
fn looks_like_number(bytes: &[u8]) -> bool {
    let digits = bytes.strip_prefix(b"-").unwrap_or(bytes);
    if digits.is_empty() {
        return false;
    }
    for byte in digits {
        if !byte.is_ascii_digit() {
            return false;
        }
    }
    true
}

// Whether the value is a text that looks like a number.
fn is_digits(value: &Value) -> bool {
    match value {
        Value::Word(bytes) => looks_like_number(bytes.as_slice()),
        _ => false,
    }
}

/// Whether some value of the tuple is a text that looks like a number.
pub(crate) fn has_digits(tuple: &Tuple) -> bool {
    for value in tuple.values.as_slice() {
        if is_digits(value) {
            return true;
        }
    }
    false
}

/// Adds a hint for each text of digits that is the only text in a column of numbers.
pub(crate) fn add_kinds(
    alloc: Global,
    space: &Space,
    kinds: &[Kinds],
    tuple: &Tuple,
    notes: &mut Vec<Note>,
) -> Result<(), Memory> {
    let Some(declared) = space.relations.get(usize::from(tuple.relation)) else {
        return Ok(());
    };
    let texts = usize::from(space.has(tuple));
    for (place, value) in tuple.values.as_slice().iter().enumerate() {
        let (Some(column), Some(kind)) = (declared.columns.get(place), kinds.get(place)) else {
            return Ok(());
        };
        if is_digits(value) && kind.are_numbers_with(texts) {
            let name = column.name.as_str();
            let words = digits_words(alloc, space, declared.name.as_str(), name, value)?;
            notes.push(Note::of(alloc, words))?;
        }
    }
    Ok(())
}

fn digits_words(
    alloc: Global,
    space: &Space,
    relation: &str,
    column: &str,
    value: &Value,
) -> Result<String, Memory> {
    let text = named_text(alloc, space, value)?;
    Ok(format!(in alloc; "{relation}.{column} has numbers so far, and {text} is a text")?)
}

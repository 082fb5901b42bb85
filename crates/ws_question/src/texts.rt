//! Printed forms as texts of their own.

use base_types::{Memory, Null, Tuple, Write};
use std::alloc::Global;
use ws_print::{Text, add_count, add_fact, add_unknown};
use ws_space::{Space, unknown_of};

/// A tuple by names, in the form that commands take.
pub fn fact_text(alloc: Global, space: &Space, tuple: &Tuple) -> Result<String, Memory> {
    let mut text = Text::new(alloc);
    add_fact(
        &mut text,
        space.relations.as_slice(),
        &space.fact(alloc, tuple)?,
    );
    Ok(text.done()?)
}

/// A tuple that came or went, after the word for one or the other.
pub fn write_text(
    alloc: Global,
    space: &Space,
    write: &Write,
    came: &str,
    went: &str,
) -> Result<String, Memory> {
    let (word, tuple) = match write {
        Write::Insert(tuple) => (came, tuple),
        Write::Delete(tuple) => (went, tuple),
    };
    let text = fact_text(alloc, space, tuple)?;
    Ok(format!(in alloc; "{word}{text}")?)
}

/// A tuple within, in the form that commands take.
pub fn inner_text(alloc: Global, space: &Space, tuple: &Tuple) -> Result<String, Memory> {
    let mut text = Text::new(alloc);
    add_fact(
        &mut text,
        space.relations.as_slice(),
        &space.shown(alloc, tuple)?,
    );
    Ok(text.done()?)
}

/// The name of an unknown.
pub fn unknown_text(alloc: Global, name: Null) -> Result<String, Memory> {
    let mut text = Text::new(alloc);
    add_unknown(&mut text, unknown_of(name));
    Ok(text.done()?)
}

/// A count and its noun.
pub fn count_text(alloc: Global, count: usize, noun: &str) -> Result<String, Memory> {
    let mut text = Text::new(alloc);
    add_count(&mut text, count, noun);
    Ok(text.done()?)
}

/// The tuples by names, between commas.
pub(crate) fn facts_text(alloc: Global, space: &Space, tuples: &[Tuple]) -> Result<String, Memory> {
    let mut text = Text::new(alloc);
    for tuple in tuples {
        if !text.is_empty() {
            text.push_str(", ");
        }
        text.made(fact_text(alloc, space, tuple));
    }
    Ok(text.done()?)
}

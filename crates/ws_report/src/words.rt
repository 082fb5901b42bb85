//! Texts that replies are made of.

use base_types::Value;
use def_memory::Memory;
use std::alloc::Global;
use ws_print::{Text, add_fact, add_facts, add_ranges, add_value};
use ws_space::Space;
use ws_written::Fact;

/// A tuple in the form that commands take.
pub fn said_text(alloc: Global, space: &Space, fact: &Fact) -> Result<String, Memory> {
    let mut text = Text::new(alloc);
    add_fact(&mut text, space.relations.as_slice(), fact);
    Ok(text.done()?)
}

/// Tuples between commas.
pub fn facts_text(alloc: Global, space: &Space, facts: &[Fact]) -> Result<String, Memory> {
    let mut text = Text::new(alloc);
    add_facts(&mut text, space.relations.as_slice(), facts);
    Ok(text.done()?)
}

/// The name of a value, in the form that commands take.
pub fn named_text(alloc: Global, space: &Space, value: &Value) -> Result<String, Memory> {
    let said = space.value(alloc, value)?;
    let mut text = Text::new(alloc);
    add_value(&mut text, &said);
    Ok(text.done()?)
}

/// The numbers as a text; numbers in a row become `A..B`.
pub fn ranges_text(alloc: Global, numbers: &[u32]) -> Result<String, Memory> {
    let mut text = Text::new(alloc);
    add_ranges(&mut text, numbers);
    Ok(text.done()?)
}

/// The texts as one, with `between` between them.
pub fn joined(alloc: Global, texts: &[String], between: &str) -> Result<String, Memory> {
    let mut all = Text::new(alloc);
    for (place, text) in texts.iter().enumerate() {
        if 0 < place {
            all.push_str(between);
        }
        all.push_str(text.as_str());
    }
    Ok(all.done()?)
}

//! The rows of a relation in the said form, and texts as JSON strings.

use base_types::Memory;
use serde_json::Value;
use std::alloc::{AllocError, Global};
use ws_space::Space;
use ws_written::Fact;

/// The tuples of a relation in the said form, in order.
pub(crate) fn facts_of(alloc: Global, space: &Space, relation: u32) -> Result<Vec<Fact>, Memory> {
    let rows = space.rows(alloc, relation)?;
    let mut facts = Vec::new(alloc);
    for tuple in rows.iter() {
        facts.push(space.shown(alloc, tuple)?)?;
    }
    Ok(facts)
}

/// The number of the relation at a place.
pub(crate) fn relation_at(place: usize) -> u32 {
    u32::try_from(place).unwrap_or(u32::MAX)
}

/// The text as a JSON string.
pub(crate) fn json_text(alloc: Global, text: &str) -> Result<String, AllocError> {
    Value::try_from_str(alloc, text)?.to_string(alloc)
}

//! Texts of the state, which are bytes, and texts in the said form.

use base_types::{List, Memory, NameList};
use std::alloc::Global;

/// The bytes of a text.
pub(crate) fn bytes_of(alloc: Global, text: &str) -> Result<List<u8>, Memory> {
    let mut bytes = Vec::new(alloc);
    bytes.extend_from_slice(text.as_bytes())?;
    Ok(List::from_vec(bytes))
}

/// The bytes as a text; empty if they are no text.
pub(crate) fn text_of(bytes: &[u8]) -> &str {
    str::from_utf8(bytes).unwrap_or("")
}

/// The bytes as a text of its own.
pub(crate) fn string_of(alloc: Global, bytes: &[u8]) -> Result<String, Memory> {
    Ok(String::from_str(alloc, text_of(bytes))?)
}

/// The name of the variable with this number; empty if there is none.
pub(crate) fn name_at(alloc: Global, names: &NameList, variable: u16) -> Result<String, Memory> {
    match names.get(usize::from(variable)) {
        Some(name) => string_of(alloc, name.as_slice()),
        None => Ok(String::new(alloc)),
    }
}

/// The number of a relation, a mapping or a variable as the state has it.
pub(crate) fn small(number: u32) -> u16 {
    u16::try_from(number).unwrap_or(u16::MAX)
}

/// A place as a number.
pub(crate) fn number(place: usize) -> u32 {
    u32::try_from(place).unwrap_or(u32::MAX)
}

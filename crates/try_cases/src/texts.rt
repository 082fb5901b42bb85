//! Names of updates, and the lines of the output.
use crate::refusals::CaseRefusal;
use audit_trace::entry_line;
use base_devices::{Sink, write_all};
use core_entries::Entry;
use lang_schema::Schema;
use std::alloc::Global;

/// The number after this letter, as 3 in `u3`. An error if the name is not spelled in this way.
pub fn number_of(name: &str, letter: char) -> Result<u32, CaseRefusal> {
    match name.strip_prefix(letter) {
        Some(number) => Ok(number.parse::<u32>()?),
        None => Err(CaseRefusal::Spelling),
    }
}

/// Adds the words as a line.
pub fn with_line(mut text: Vec<u8>, line: &str) -> Result<Vec<u8>, CaseRefusal> {
    text.extend_from_slice(line.as_bytes())?;
    text.push(b'\n')?;
    Ok(text)
}

/// Adds the lines of the entries from this place on, counted from 0.
pub fn with_entries(
    alloc: Global,
    mut text: Vec<u8>,
    schema: &Schema,
    history: &[Entry],
    place: usize,
) -> Result<Vec<u8>, CaseRefusal> {
    for entry in history.iter().skip(place) {
        text.extend_from_slice(entry_line(alloc, schema, entry)?.as_slice())?;
    }
    Ok(text)
}

/// Writes the text. An error if the sink does not take all of it.
pub fn tell<O: Sink>(out: &mut O, text: &[u8]) -> Result<(), CaseRefusal> {
    write_all(out, text)?;
    Ok(())
}

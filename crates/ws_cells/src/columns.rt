//! The names of columns, in a file and in a relation.

use std::alloc::{AllocError, Global};
use ws_print::Text;

// Whether the character is cut off around the name of a column.
fn is_margin(letter: char) -> bool {
    letter.is_whitespace() || ('\u{1c}' <= letter && letter <= '\u{1f}')
}

/// The names of a file's columns: its first cells, without the blanks around them.
pub(crate) fn header_of(alloc: Global, cells: &[String]) -> Result<Vec<String>, AllocError> {
    let mut names = Vec::new(alloc);
    for cell in cells {
        names.push(String::from_str(alloc, cell.as_str().trim_matches(is_margin))?)?;
    }
    Ok(names)
}

// The name with `_` for each character that a name may not have.
fn with_underscores(alloc: Global, name: &str) -> Result<String, AllocError> {
    let mut out = Text::new(alloc);
    for letter in name.chars() {
        let stands = letter.is_ascii_alphanumeric() || letter == '_';
        out.push(if stands { letter } else { '_' });
    }
    out.done()
}

/// The name of a column made from a name in a file. A name that begins with no letter gets a `c` in front.
pub(crate) fn made_name(alloc: Global, name: &str) -> Result<String, AllocError> {
    if name.is_empty() {
        return String::from_str(alloc, "c");
    }
    let made = with_underscores(alloc, name)?;
    match made.as_bytes().first() {
        Some(first) if first.is_ascii_alphabetic() => Ok(made),
        _ => format!(in alloc; "c{made}"),
    }
}

/// The place of a name; None if it is not there.
pub(crate) fn place_of(names: &[String], name: &str) -> Option<usize> {
    for (place, other) in names.iter().enumerate() {
        if other.as_str() == name {
            return Some(place);
        }
    }
    None
}

/// Whether a name stands there twice.
pub(crate) fn has_twice(names: &[String]) -> bool {
    for (place, name) in names.iter().enumerate() {
        if place_of(names, name.as_str()) != Some(place) {
            return true;
        }
    }
    false
}

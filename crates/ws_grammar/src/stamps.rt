//! Times, names and stamps.

use crate::bytes::{cut_at, name_run};
use std::alloc::{AllocError, Global};
use ws_written::Stamp;

// The form of a time, with a `d` for each digit.
const FORM: &str = "dddd-dd-ddTdd:dd:ddZ";

/// Whether a text is a name: a letter or `_`, and then letters, digits and `_`.
pub fn is_name(text: &str) -> bool {
    match name_run(text.as_bytes()) {
        Some((_, rest)) => rest.is_empty(),
        None => false,
    }
}

/// Whether a text has the form of a time, `YYYY-MM-DDThh:mm:ssZ`.
pub fn is_time(text: &str) -> bool {
    if text.len() != FORM.len() {
        return false;
    }
    for (place, byte) in text.as_bytes().iter().enumerate() {
        match FORM.as_bytes().get(place) {
            Some(form) if fits(*byte, *form) => {}
            _ => return false,
        }
    }
    true
}

// Whether a byte may stand in the place of `form`, a byte of the form of a time.
fn fits(byte: u8, form: u8) -> bool {
    if form == b'd' {
        return byte.is_ascii_digit();
    }
    byte == form
}

/// The stamp of a time and a name. None if the texts are not such.
pub(crate) fn stamp_of(
    alloc: Global,
    time: &str,
    curator: &str,
) -> Result<Option<Stamp>, AllocError> {
    if !is_time(time) || !is_name(curator) {
        return Ok(None);
    }
    Ok(Some(Stamp {
        time: String::from_str(alloc, time)?,
        curator: String::from_str(alloc, curator)?,
    }))
}

/// The stamp of a record's first line, `TIME CURATOR`. Further words, which later versions may write, are ignored.
pub(crate) fn record_stamp(alloc: Global, line: &str) -> Result<Option<Stamp>, AllocError> {
    let (time, rest) = cut_at(line, ' ');
    let (curator, _) = cut_at(rest, ' ');
    stamp_of(alloc, time, curator)
}

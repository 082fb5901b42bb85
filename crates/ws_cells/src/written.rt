//! The bytes of a file as a text, and cells as they are written.

use crate::refusing::fault;
use std::alloc::Global;
use ws_fault::{Refusal, Status};
use ws_print::Text;

/// The number of lines that end in the bytes.
pub(crate) fn count_ends(bytes: &[u8]) -> u64 {
    let mut count = 0u64;
    for byte in bytes {
        if *byte == b'\n' {
            count = count.saturating_add(1);
        }
    }
    count
}

/// The bytes of a file as a text. A file that is not UTF-8 is refused, with the place of the first wrong byte.
pub fn text_of<'a>(alloc: Global, path: &str, bytes: &'a [u8]) -> Result<&'a str, Refusal> {
    match str::from_utf8(bytes) {
        Ok(text) => Ok(text),
        Err(error) => {
            let at = error.valid_up_to();
            let before = bytes.get(..at).unwrap_or(bytes);
            let line = count_ends(before).saturating_add(1);
            let words = format!(in alloc; "{path} is not UTF-8, at byte {at}, line {line}")?;
            let hint = String::from_str(alloc, "convert it: iconv -f latin1 -t utf8")?;
            fault(alloc, Status::Refused, words, Some(hint))
        }
    }
}

// Whether a cell needs quotes.
fn is_quoted(text: &str) -> bool {
    text.is_empty() || text.trim().len() != text.len() || text.contains(['"', ',', '\r', '\n'])
}

/// Adds a text as a cell. If it would otherwise be read as another text, it stands between quotes, and its own quotes are
/// doubled.
pub fn add_csv_cell(out: &mut Text, text: &str) {
    if !is_quoted(text) {
        return out.push_str(text);
    }
    out.push('"');
    for (place, part) in text.split('"').enumerate() {
        out.push_str(if 0 < place { "\"\"" } else { "" });
        out.push_str(part);
    }
    out.push('"')
}

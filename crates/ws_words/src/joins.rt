//! Words as one line, and helpers for words that may be at fault.

use crate::steps::fault_of;
use std::alloc::{AllocError, Global};
use ws_fault::Fault;
use ws_print::Text;

/// The words joined by blanks; None if there are none.
pub fn joined(alloc: Global, words: &[String]) -> Result<Option<String>, AllocError> {
    if words.is_empty() {
        return Ok(None);
    }
    let mut line = Text::new(alloc);
    for (place, word) in words.iter().enumerate() {
        line.push_str(if 0 < place { " " } else { "" });
        line.push_str(word.as_str());
    }
    let line = line.done()?;
    Ok(Some(line))
}

/// Whether `--json` stands among the words before the command. The words may be at fault.
pub fn wants_json(words: &[String]) -> bool {
    let mut files = 0u32;
    let mut is_value = false;
    for word in words {
        let word = word.as_str();
        if 2 <= files {
            return false;
        }
        if word == "--json" && !is_value {
            return true;
        }
        if !is_value && !word.starts_with("-") {
            files = files.saturating_add(1);
        }
        is_value = !is_value && (word == "--as" || word == "--wait");
    }
    false
}

/// The fault of words with a verb in place of the file; the hint puts FILE before the verb.
pub fn file_first(alloc: Global, words: &[String], file: &str) -> Result<Fault, AllocError> {
    let place = words.iter().position(|w| w.as_str() == file);
    let from = words.get(place.unwrap_or(0)..).unwrap_or(words);
    let mut hint = Text::from_str(alloc, "yt FILE ");
    if let Some(line) = joined(alloc, from)? {
        hint.push_str(line.as_str());
    }
    let hint = hint.done()?;
    fault_of(alloc, "the file comes first", hint.as_str())
}

//! The name of the curator who speaks.

use std::alloc::{AllocError, Global};
use ws_print::Text;

// The text with `_` for each character that a name may not have.
fn with_underscores(alloc: Global, text: &str) -> Result<String, AllocError> {
    let mut out = Text::new(alloc);
    for letter in text.chars() {
        let stands = letter.is_ascii_alphanumeric() || letter == '_';
        out.push(if stands { letter } else { '_' });
    }
    out.done()
}

/// The curator's name that a text of the environment or of `--as` stands for. Each character that a name may not have becomes
/// `_`; a text that begins with a digit gets a `_` in front; an empty text becomes `someone`.
pub fn curator_of(alloc: Global, text: &str) -> Result<String, AllocError> {
    if text.is_empty() {
        return String::from_str(alloc, "someone");
    }
    let name = with_underscores(alloc, text)?;
    if name.as_str().starts_with(|c: char| c.is_ascii_digit()) {
        return format!(in alloc; "_{name}");
    }
    Ok(name)
}

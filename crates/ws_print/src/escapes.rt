//! Control characters as escapes, and texts in their quotes.

use crate::texts::Text;
use std::fmt::Write;

/// Whether a character could act on a terminal or change the direction of writing: C0, DEL, C1, and the marks of lines,
/// paragraphs and directions.
pub fn is_control(letter: char) -> bool {
    let code = u32::from(letter);
    match code {
        0..=31 | 127..=159 => true,
        0x061c | 0x200e | 0x200f | 0x2028..=0x202e | 0x2066..=0x2069 => true,
        _ => false,
    }
}

/// Adds a letter, or `\u{hex}` for a control character.
pub fn add_letter(out: &mut Text, letter: char) {
    if is_control(letter) {
        let code = u32::from(letter);
        return write!(out, "\\u{{{code:x}}}");
    }
    out.push(letter)
}

/// Adds a text, with control characters as `\u{hex}`.
pub fn add_escaped(out: &mut Text, text: &str) {
    for letter in text.chars() {
        add_letter(out, letter);
    }
}

/// Adds a text between quotes, as a command takes it.
pub fn add_quoted(out: &mut Text, text: &str) {
    out.push('"');
    for letter in text.chars() {
        match letter {
            '"' => out.push_str("\\\""),
            '\\' => out.push_str("\\\\"),
            '\n' => out.push_str("\\n"),
            _ => add_letter(out, letter),
        }
    }
    out.push('"')
}

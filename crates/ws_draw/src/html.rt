//! Texts as HTML writes them.

use std::fmt::Write;
use ws_print::{Text, is_control};

fn add_letter(out: &mut Text, letter: char) {
    match letter {
        '&' => out.push_str("&amp;"),
        '<' => out.push_str("&lt;"),
        '>' => out.push_str("&gt;"),
        '"' => out.push_str("&quot;"),
        '\'' => out.push_str("&#x27;"),
        '\n' | '\t' => out.push(letter),
        _ => add_other(out, letter),
    }
}

fn add_other(out: &mut Text, letter: char) {
    if is_control(letter) {
        let code = u32::from(letter);
        return write!(out, "\\u{{{code:x}}}");
    }
    out.push(letter)
}

/// Adds a text so that a page shows it as it is, inside elements and inside attributes. Control characters other than line feeds
/// and tabs become `\u{hex}`.
pub fn add_html(out: &mut Text, text: &str) {
    for letter in text.chars() {
        add_letter(out, letter);
    }
}

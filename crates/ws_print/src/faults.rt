//! Faults as they are printed: the words, the line with a mark under the place, further faults, and a hint.

use crate::escapes::is_control;
use crate::tables::add_times;
use crate::texts::Text;
use std::fmt::Write;
use unicode_width::UnicodeWidthStr;
use ws_fault::Fault;

/// Whether a line has a control character other than a tab. Such a line is not shown with its fault.
pub fn has_control(line: &str) -> bool {
    line.chars().any(|c| c != '\t' && is_control(c))
}

// Adds `line N, column C: `, or the part of it that is known.
fn add_place(out: &mut Text, number: Option<u64>, fault: &Fault) {
    if let Some(line) = number {
        write!(out, "line {line}");
        out.push_str(if fault.place.is_some() { ", " } else { ": " });
    }
    if let Some(place) = fault.place {
        let column = place.saturating_add(1);
        write!(out, "column {column}: ");
    }
}

// The first `count` characters of a line.
fn first_of(line: &str, count: usize) -> &str {
    match line.char_indices().nth(count) {
        Some((end, _)) => line.get(..end).unwrap_or(line),
        None => line,
    }
}

// Adds blanks as wide as the first `count` characters of the line. A tab stays a tab.
fn add_blanks(out: &mut Text, line: &str, count: usize) {
    for (place, part) in first_of(line, count).split('\t').enumerate() {
        if 0 < place {
            out.push('\t');
        }
        add_times(out, ' ', part.width());
    }
}

// Adds the line, and `^` under the place.
fn add_mark(out: &mut Text, line: &str, place: usize) {
    let shown = line.trim_end_matches('\r');
    if has_control(shown) {
        return;
    }
    write!(out, "\n  {shown}\n  ");
    add_blanks(out, shown, place);
    out.push('^');
}

/// Adds a fault of a line, with the `number` of the line if it stands in a script. There is no `yt: ` in front and no last
/// line feed.
pub fn add_fault(out: &mut Text, fault: &Fault, line: &str, number: Option<u64>) {
    add_place(out, number, fault);
    out.push_str(fault.words.as_str());
    if let Some(place) = fault.place {
        add_mark(out, line, place);
    }
    for more in fault.more.iter() {
        out.push_str("\n  ");
        out.push_str(more.as_str());
    }
    if let Some(hint) = &fault.hint {
        out.push_str("\n  ");
        out.push_str(hint.as_str());
    }
}

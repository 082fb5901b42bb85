//! Ranges of numbers, and counts with their nouns.

use crate::texts::Text;
use std::fmt::Write;

fn add_range(out: &mut Text, first: u32, last: u32) {
    if first == last {
        return write!(out, "{first}");
    }
    write!(out, "{first}..{last}")
}

/// Adds numbers, with commas between them. Numbers that follow each other are one range, `A..B`.
pub fn add_ranges(out: &mut Text, numbers: &[u32]) {
    let Some((first, others)) = numbers.split_first() else {
        return;
    };
    let mut from = *first;
    let mut to = *first;
    for number in others {
        if to.checked_add(1) != Some(*number) {
            add_range(out, from, to);
            out.push_str(", ");
            from = *number;
        }
        to = *number;
    }
    add_range(out, from, to)
}

/// Adds a count and its noun: `1 tuple`, `2 tuples`, `2 queries`, `2 clashes`.
pub fn add_count(out: &mut Text, count: usize, noun: &str) {
    if count == 1 {
        return write!(out, "1 {noun}");
    }
    if let Some(stem) = noun.strip_suffix("y") {
        return write!(out, "{count} {stem}ies");
    }
    if noun.ends_with("sh") {
        return write!(out, "{count} {noun}es");
    }
    write!(out, "{count} {noun}s")
}

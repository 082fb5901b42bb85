//! The lines of a question.

use crate::asked::AskedNow;
use crate::candidates::{Candidate, candidates_of};
use crate::texts::{fact_text, facts_text, write_text};
use base_types::Memory;
use std::alloc::Global;
use ws_print::{Lines, Text, add_count, add_quoted, add_rule};
use ws_space::Space;

// The number of writes before the question that are listed.
const SO_FAR: usize = 6;

/// The line that asks.
pub fn question_line(alloc: Global, space: &Space, asked: &AskedNow) -> Result<String, Memory> {
    let name = match asked.rule(space) {
        Some(rule) => rule.name.as_str(),
        None => "",
    };
    match asked.wanted() {
        Some(wanted) => {
            let wanted = fact_text(alloc, space, wanted)?;
            Ok(format!(in alloc; "{name} wants {wanted}. Is it one of these?")?)
        }
        None => Ok(format!(in alloc; "{name} no longer holds for these. Which of them go?")?),
    }
}

/// The lines of the question: what it asks, at most `limit` of the candidates that contain `like`, and why it asks.
pub fn question_lines(
    alloc: Global,
    space: &Space,
    asked: &AskedNow,
    like: Option<&str>,
    limit: usize,
) -> Result<Vec<String>, Memory> {
    let mut lines = Lines::new(alloc);
    lines.made(question_line(alloc, space, asked));
    add_candidates(alloc, &mut lines, space, asked, like, limit)?;
    add_why(alloc, &mut lines, space, asked);
    add_so_far(alloc, &mut lines, space, asked);
    Ok(lines.done()?)
}

fn add_candidates(
    alloc: Global,
    lines: &mut Lines,
    space: &Space,
    asked: &AskedNow,
    like: Option<&str>,
    limit: usize,
) -> Result<(), Memory> {
    let width = number_width(alloc, asked)?;
    let found = candidates_of(alloc, space, asked, like, limit)?;
    add_shown(alloc, lines, found.shown.as_slice(), width);
    if limit < found.fit {
        let more = found.fit.saturating_sub(limit);
        let number = asked.number;
        lines.made(format!(in alloc;
            "  .. and {more} more: questions {number} --like TEXT, or --limit N"
        ));
    }
    if let (0, Some(like)) = (found.fit, like) {
        lines.made(none_like(alloc, asked, like));
    }
    if asked.question.is_positive {
        lines.made(numbered(alloc, "new", width, "none of them"));
    }
    Ok(())
}

// Adds a line for each candidate.
fn add_shown(alloc: Global, lines: &mut Lines, shown: &[Candidate], width: usize) {
    for candidate in shown {
        lines.made(candidate_line(alloc, candidate, width));
    }
}

fn candidate_line(alloc: Global, candidate: &Candidate, width: usize) -> Result<String, Memory> {
    let number = candidate.number;
    let number = format!(in alloc; "{number}")?;
    numbered(alloc, number.as_str(), width, candidate.text.as_str())
}

// The line that no candidate contains the text.
fn none_like(alloc: Global, asked: &AskedNow, like: &str) -> Result<String, Memory> {
    let mut line = Text::from_str(alloc, "  none of ");
    add_count(&mut line, asked.count(), "candidate");
    line.push_str(" has ");
    add_quoted(&mut line, like);
    line.push_str(" in it");
    Ok(line.done()?)
}

// The width of the numbers.
fn number_width(alloc: Global, asked: &AskedNow) -> Result<usize, Memory> {
    let count = asked.count();
    let digits = format!(in alloc; "{count}")?;
    if asked.question.is_positive {
        return Ok(digits.len().max(3));
    }
    Ok(digits.len())
}

// A line of the list: its number, padded to `width` columns, and its text.
fn numbered(alloc: Global, number: &str, width: usize, text: &str) -> Result<String, Memory> {
    let mut line = Text::new(alloc);
    write!(line, "  {number}");
    for _ in number.len()..width {
        line.push(' ');
    }
    line.push_str("  ");
    line.push_str(text);
    Ok(line.done()?)
}

// Adds the mapping that asks, and the image that made it ask.
fn add_why(alloc: Global, lines: &mut Lines, space: &Space, asked: &AskedNow) {
    let mut line = Text::from_str(alloc, "why: ");
    if let Some(rule) = asked.rule(space) {
        add_rule(&mut line, space.relations.as_slice(), rule);
    }
    lines.made(line.done());
    if asked.question.is_positive {
        lines.made(since_line(alloc, space, asked));
    }
}

fn since_line(alloc: Global, space: &Space, asked: &AskedNow) -> Result<String, Memory> {
    let since = facts_text(alloc, space, asked.question.since.as_slice())?;
    Ok(format!(in alloc; "     since {since}")?)
}

// Adds what the update did before it asked.
fn add_so_far(alloc: Global, lines: &mut Lines, space: &Space, asked: &AskedNow) {
    let so_far = asked.question.so_far.as_slice();
    for write in so_far.iter().take(SO_FAR) {
        lines.made(write_text(alloc, space, write, "so far: + ", "so far: - "));
    }
    if SO_FAR < so_far.len() {
        let more = so_far.len().saturating_sub(SO_FAR);
        lines.made(format!(in alloc; "so far: and {more} more"));
    }
}

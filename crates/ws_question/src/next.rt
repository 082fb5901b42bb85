//! The commands that may follow a question.

use crate::asked::AskedNow;
use base_types::Memory;
use std::alloc::Global;
use ws_print::Lines;

/// The commands that answer the question, show it again, and take its update back.
pub fn question_next(alloc: Global, asked: &AskedNow) -> Result<Vec<String>, Memory> {
    let number = asked.number;
    let mut next = Lines::new(alloc);
    if let Some(place) = asked.ranked.first() {
        let first = place.saturating_add(1);
        next.made(format!(in alloc; "answer {number} {first}"));
    }
    if asked.question.is_positive {
        next.made(format!(in alloc; "answer {number} new"));
    }
    next.made(format!(in alloc; "questions {number}"));
    next.made(format!(in alloc; "undo {number}"));
    Ok(next.done()?)
}

//! `--at`: whether a question is still the one that it was after a record.

use std::alloc::{AllocError, Global};
use ws_fault::Refusal;
use ws_question::{AskedNow, question_lines};
use ws_report::{CANDIDATES, refuse_made, refuse_with};
use ws_run::{Question, Reason};
use ws_space::Space;

/// Refuses a question that differs from the one after record `at`, and a record that is not there or was folded. `past` is the
/// space after that record, if it is not the last one.
pub(crate) fn check_since(
    alloc: Global,
    space: &Space,
    past: Option<&mut Space>,
    asked: &AskedNow,
    at: u32,
) -> Result<(), Refusal> {
    let last = space.at();
    if last < at {
        return refuse_later(alloc, last, at);
    }
    if at < space.first {
        return refuse_folded(alloc, asked.number, at);
    }
    if at == last || asked_so(alloc, past, asked)? {
        return Ok(());
    }
    refuse_other(alloc, space, asked, at)
}

fn refuse_later(alloc: Global, last: u32, at: u32) -> Result<(), Refusal> {
    let words = format!(in alloc; "the log has no record {at}");
    refuse_made(alloc, words, format!(in alloc; "it is at {last}"))
}

fn refuse_folded(alloc: Global, number: u32, at: u32) -> Result<(), Refusal> {
    let words = format!(in alloc; "record {at} was folded");
    refuse_made(alloc, words, look_again(alloc, number))
}

fn refuse_other(alloc: Global, space: &Space, asked: &AskedNow, at: u32) -> Result<(), Refusal> {
    let number = asked.number;
    let words = format!(in alloc; "the question of {number} is another than at {at}")?;
    let hint = look_again(alloc, number)?;
    let lines = question_lines(alloc, space, asked, None, CANDIDATES)?;
    refuse_with(alloc, words.as_str(), hint.as_str(), lines)
}

fn look_again(alloc: Global, number: u32) -> Result<String, AllocError> {
    format!(in alloc; "look again: questions {number}")
}

// Whether the update asked this question in `past`.
fn asked_so(alloc: Global, past: Option<&mut Space>, asked: &AskedNow) -> Result<bool, Refusal> {
    let Some(past) = past else {
        return Ok(false);
    };
    match past.question(alloc, asked.number)? {
        Some(Reason::Asks(old)) => Ok(is_same(&old, &asked.question)),
        _ => Ok(false),
    }
}

fn is_same(one: &Question, other: &Question) -> bool {
    one.asked.source == other.asked.source
        && one.asked.tuples == other.asked.tuples
        && one.candidates == other.candidates
}

//! `questions`: the updates that wait, and the answers that they wait for.

use crate::question_told::{lines, objects};
use base_types::Memory;
use std::alloc::Global;
use ws_fault::{Refusal, Status as Code};
use ws_question::{AskedNow, Shown, asked_now, reason_words, status_of, status_word};
use ws_reply::{Context, Reply, refused, seen_objects, seen_text};
use ws_run::{Question, Reason};
use ws_space::Space;
use ws_state::Status;

// The greatest number of candidates shown for each question, and for one question that is asked for.
const OF_EACH: usize = 10;

const OF_ONE: usize = 50;

/// Which questions are wanted: that of one update, or all; which of their candidates; and whether only those of one's own
/// updates.
#[derive(Clone, Copy)]
pub(crate) struct Wanted<'a> {
    pub number: Option<u32>,
    pub like: Option<&'a str>,
    pub mine: bool,
    pub limit: Option<u32>,
}

impl<'a> Wanted<'a> {
    /// Which questions are wanted. An empty text in `like` counts as None.
    pub(crate) fn of(
        number: Option<u32>,
        like: Option<&'a str>,
        mine: bool,
        limit: Option<u32>,
    ) -> Wanted<'a> {
        let like = match like {
            Some(text) if !text.is_empty() => Some(text),
            _ => None,
        };
        Wanted {
            number,
            like,
            mine,
            limit,
        }
    }
}

/// An update that waits: its question, or the reason why it waits without one.
#[derive(Drop)]
pub(crate) struct Told {
    pub number: u32,
    pub asked: Option<AskedNow>,
    pub kind: &'static str,
    pub words: String,
}

/// Which candidates are shown, and the greatest number of them.
#[derive(Clone, Copy)]
pub(crate) struct Telling<'a> {
    pub like: Option<&'a str>,
    pub limit: usize,
}

/// The updates that wait, each with its question or the reason. The questions then count as shown. It is refused if an update
/// that was asked for does not wait.
pub(crate) fn questions(
    alloc: Global,
    space: &mut Space,
    shown: &mut Shown,
    context: &Context<'_>,
    wanted: Wanted<'_>,
) -> Result<Reply, Refusal> {
    let numbers = wanted_numbers(alloc, space, context, wanted)?;
    let told = told_all(alloc, space, shown, numbers.as_slice())?;
    let telling = Telling {
        like: wanted.like,
        limit: limit_of(wanted),
    };
    Ok(reply(alloc, space, context, told.as_slice(), telling)?)
}

fn reply(
    alloc: Global,
    space: &Space,
    context: &Context<'_>,
    told: &[Told],
    telling: Telling<'_>,
) -> Result<Reply, Memory> {
    if context.is_json() {
        return seen_objects(alloc, Code::Done, objects(alloc, space, told, telling)?);
    }
    Ok(seen_text(Code::Done, lines(alloc, space, told, telling)?))
}

// The updates with their questions, which then count as shown.
fn told_all(
    alloc: Global,
    space: &mut Space,
    shown: &mut Shown,
    numbers: &[u32],
) -> Result<Vec<Told>, Memory> {
    let mut told = Vec::new(alloc);
    for number in numbers {
        told.push(shown_one(alloc, space, shown, *number)?)?;
    }
    Ok(told)
}

fn shown_one(
    alloc: Global,
    space: &mut Space,
    shown: &mut Shown,
    number: u32,
) -> Result<Told, Memory> {
    let told = told_of(alloc, space, number)?;
    if let Some(asked) = &told.asked {
        shown.put(asked)?;
    }
    Ok(told)
}

fn limit_of(wanted: Wanted<'_>) -> usize {
    match wanted.limit {
        Some(limit) => limit as usize,
        None if wanted.number.is_some() => OF_ONE,
        None => OF_EACH,
    }
}

fn wanted_numbers(
    alloc: Global,
    space: &Space,
    context: &Context<'_>,
    wanted: Wanted<'_>,
) -> Result<Vec<u32>, Refusal> {
    let mut numbers = match wanted.number {
        Some(number) => one_number(alloc, space, number)?,
        None => space.waiting_numbers(alloc)?,
    };
    if wanted.mine {
        numbers = numbers_of(alloc, space, context.curator, numbers.as_slice())?;
    }
    if let Some(number) = numbers.first() {
        refuse_others(alloc, space, *number)?;
    }
    Ok(numbers)
}

// The updates among these that this curator said.
fn numbers_of(
    alloc: Global,
    space: &Space,
    curator: &str,
    numbers: &[u32],
) -> Result<Vec<u32>, Memory> {
    let mut mine = Vec::new(alloc);
    for number in numbers {
        if space.curator_of(*number) == curator {
            mine.push(*number)?;
        }
    }
    Ok(mine)
}

fn one_number(alloc: Global, space: &Space, number: u32) -> Result<Vec<u32>, Refusal> {
    status_of(alloc, space, number)?;
    let mut numbers = Vec::new(alloc);
    numbers.push(number)?;
    Ok(numbers)
}

// Refuses an update that does not wait.
fn refuse_others(alloc: Global, space: &Space, number: u32) -> Result<(), Refusal> {
    let status = match status_of(alloc, space, number)? {
        Status::Waits => return Ok(()),
        Status::Stands => "done",
        other => status_word(other),
    };
    let words = format!(in alloc; "update {number} waits for no answer: it is {status}")?;
    Err(Refusal::Fault(refused(alloc, words, None)))
}

fn told_of(alloc: Global, space: &mut Space, number: u32) -> Result<Told, Memory> {
    match space.question(alloc, number)? {
        Some(Reason::Asks(question)) => asking(alloc, space, number, question),
        reason => unasking(alloc, space, number, reason.as_ref()),
    }
}

fn asking(alloc: Global, space: &Space, number: u32, question: Question) -> Result<Told, Memory> {
    let asked = asked_now(alloc, space, number, question)?;
    Ok(Told {
        number,
        asked: Some(asked),
        kind: "question",
        words: String::new(alloc),
    })
}

fn unasking(
    alloc: Global,
    space: &Space,
    number: u32,
    reason: Option<&Reason>,
) -> Result<Told, Memory> {
    let words = reason_words(alloc, space, reason)?;
    Ok(Told {
        number,
        asked: None,
        kind: kind_of(reason),
        words,
    })
}

// The kind of reason why an update waits without a question.
fn kind_of(reason: Option<&Reason>) -> &'static str {
    match reason {
        None => "none",
        Some(Reason::Asks(_)) => "question",
        Some(Reason::NotThere(_)) => "lost",
        Some(Reason::TooLong(_)) => "spent",
        Some(Reason::Violated(_)) => "violated",
        Some(Reason::Gone(_)) => "gone",
    }
}

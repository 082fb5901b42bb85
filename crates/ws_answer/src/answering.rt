//! `answer` to one update.

use crate::choosing::{answer_to, choose};
use crate::giving::{Given, asking, give};
use crate::records::is_answered;
use crate::same::check_since;
use std::alloc::{AllocError, Global};
use ws_command::SaidChoice;
use ws_fault::{Refusal, Status as Comes};
use ws_print::{Text, add_choice};
use ws_question::{AskedNow, Shown, asked_now, question_lines, reason_words, status_of};
use ws_reply::Context;
use ws_report::{CANDIDATES, Done, refuse, refuse_made, refuse_with};
use ws_run::Reason;
use ws_space::Space;
use ws_state::Status;
use ws_written::{Choice, Line};

/// An answer as it was said: the updates that it is for, what it chooses, and the record of `--at`.
#[derive(Drop)]
pub struct SaidAnswer {
    pub numbers: Vec<u32>,
    pub choice: SaidChoice,
    pub at: Option<u32>,
}

/// What an answer leads to: it is given, or the question is asked again.
#[derive(Drop)]
enum Met {
    Gives(Given),
    Asks(AskedNow),
}

/// Answers the first of the updates. It is refused if the update does not wait, if it asks nothing or another question, if the
/// choice does not fit, or if the update cannot go on after it.
pub fn answer(
    alloc: Global,
    space: &mut Space,
    shown: &mut Shown,
    past: Option<&mut Space>,
    context: &Context<'_>,
    said: &SaidAnswer,
) -> Result<Done, Refusal> {
    let number = said.numbers.first().copied().unwrap_or(0);
    check_waits(alloc, space, number)?;
    match meet(alloc, space, shown, past, context, said)? {
        Met::Asks(asked) => asks_again(alloc, asked),
        Met::Gives(given) => {
            let done = give(alloc, space, number, given);
            if done.is_ok() && !context.trying {
                shown.forget(number);
            }
            done
        }
    }
}

// Refuses an update that does not wait.
fn check_waits(alloc: Global, space: &Space, number: u32) -> Result<(), Refusal> {
    let stands = match status_of(alloc, space, number)? {
        Status::Waits => return Ok(()),
        Status::Stands => "done",
        Status::Undone => "undone",
        Status::GivenUp => "given up",
    };
    let words = format!(in alloc; "update {number} waits for no answer: it is {stands}");
    refuse_made(alloc, words, silent_hint(alloc, space, number, stands))
}

// How to make the update ask again; empty if it took no answers.
fn silent_hint(
    alloc: Global,
    space: &Space,
    number: u32,
    stands: &str,
) -> Result<String, AllocError> {
    if stands != "done" {
        return Ok(String::new(alloc));
    }
    match is_answered(alloc, space, number) {
        Ok(true) => format!(in alloc; "undo {number} --answers makes it ask again"),
        Ok(false) => Ok(String::new(alloc)),
        Err(_) => Err(AllocError),
    }
}

// What the answer leads to, given what the update asks now.
fn meet(
    alloc: Global,
    space: &mut Space,
    shown: &mut Shown,
    past: Option<&mut Space>,
    context: &Context<'_>,
    said: &SaidAnswer,
) -> Result<Met, Refusal> {
    let number = said.numbers.first().copied().unwrap_or(0);
    match space.question(alloc, number)? {
        Some(Reason::Asks(question)) => {
            let asked = asked_now(alloc, space, number, question)?;
            meet_asked(alloc, space, shown, past, context, said, asked)
        }
        Some(reason) => meet_silent(alloc, space, number, &said.choice, Some(&reason)),
        None => meet_silent(alloc, space, number, &said.choice, None),
    }
}

// What the answer leads to if the update asks.
fn meet_asked(
    alloc: Global,
    space: &Space,
    shown: &mut Shown,
    past: Option<&mut Space>,
    context: &Context<'_>,
    said: &SaidAnswer,
    asked: AskedNow,
) -> Result<Met, Refusal> {
    let checked = match said.at {
        Some(at) => check_since(alloc, space, past, &asked, at),
        None => check_shown(alloc, space, shown, context, &asked, &said.choice),
    };
    let given = match checked {
        Ok(()) => given_of(alloc, space, &asked, &said.choice),
        Err(refusal) => Err(refusal),
    };
    match given {
        Ok(Some(given)) => {
            drop(asked);
            Ok(Met::Gives(given))
        }
        Ok(None) => Ok(Met::Asks(asked)),
        Err(refusal) => {
            drop(asked);
            Err(refusal)
        }
    }
}

// Refuses numbers if the candidates have changed since they were shown.
fn check_shown(
    alloc: Global,
    space: &Space,
    shown: &mut Shown,
    context: &Context<'_>,
    asked: &AskedNow,
    choice: &SaidChoice,
) -> Result<(), Refusal> {
    let SaidChoice::Numbers(_) = choice else {
        return Ok(());
    };
    if !shown.is_other(asked) {
        return Ok(());
    }
    if !context.trying {
        shown.put(asked)?;
    }
    let number = asked.number;
    let words = format!(in alloc; "the candidates of {number} have changed since they were shown")?;
    let hint = format!(in alloc; "look again: questions {number}")?;
    let lines = question_lines(alloc, space, asked, None, CANDIDATES)?;
    refuse_with(alloc, words.as_str(), hint.as_str(), lines)
}

// The answer with this choice; None if the question is to be asked again.
fn given_of(
    alloc: Global,
    space: &Space,
    asked: &AskedNow,
    said: &SaidChoice,
) -> Result<Option<Given>, Refusal> {
    let Some(choice) = choose(alloc, space, asked, said)? else {
        return Ok(None);
    };
    let number = asked.number;
    let text = choice_text(alloc, space, number, &choice)?;
    let answer = answer_to(alloc, space, &asked.question.asked, choice)?;
    Ok(Some(Given {
        line: Line::Answer(number, answer),
        text,
    }))
}

fn choice_text(
    alloc: Global,
    space: &Space,
    number: u32,
    choice: &Choice,
) -> Result<String, AllocError> {
    let mut text = Text::new(alloc);
    write!(text, "answer {number} ");
    add_choice(&mut text, space.relations.as_slice(), choice);
    text.done()
}

fn go_text(alloc: Global, number: u32) -> Result<String, AllocError> {
    format!(in alloc; "answer {number} go")
}

// The outcome if the update was to go on, but still asks.
fn asks_again(alloc: Global, asked: AskedNow) -> Result<Done, Refusal> {
    let report = match go_text(alloc, asked.number) {
        Ok(text) => asking(alloc, Comes::Nothing, "asks", text, asked)?,
        Err(_) => {
            drop(asked);
            return Err(Refusal::Memory);
        }
    };
    Ok(Done::unrecorded(alloc, report))
}

// What the answer leads to if the update asks nothing: it tries again if the answer is `go`, else the answer is refused.
fn meet_silent(
    alloc: Global,
    space: &Space,
    number: u32,
    choice: &SaidChoice,
    reason: Option<&Reason>,
) -> Result<Met, Refusal> {
    let text = go_text(alloc, number)?;
    if let SaidChoice::Go = choice {
        return Ok(Met::Gives(Given {
            line: Line::Go(number),
            text,
        }));
    }
    let reason = reason_words(alloc, space, reason)?;
    let words = format!(in alloc; "update {number} asks nothing now: {reason}")?;
    refuse(alloc, words.as_str(), text.as_str())
}

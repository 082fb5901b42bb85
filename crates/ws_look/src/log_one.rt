//! `log N`: what one update did.

use base_types::{Memory, Write};
use std::alloc::Global;
use ws_fault::{Refusal, Status as Code};
use ws_json::Object;
use ws_lines::Given;
use ws_print::{Lines, Text, add_choice, add_count};
use ws_question::{reason_words, status_of, status_word, write_items, write_text};
use ws_reply::{Context, Reply, object_of, seen_object, seen_text, text_items};
use ws_space::Space;
use ws_state::{Standing, Status, Waiting};
use ws_written::{Choice, Line};

// An update: its answers, and its status with words about it.
#[derive(Drop)]
struct Told {
    number: u32,
    status: Status,
    words: String,
    answers: Vec<String>,
}

/// The update with this number: its line, its answers, its status, and what it wrote. It is refused if there is none.
pub(crate) fn log_one(
    alloc: Global,
    space: &mut Space,
    context: &Context<'_>,
    number: u32,
) -> Result<Reply, Refusal> {
    let status = status_of(alloc, space, number)?;
    let told = told_of(alloc, space, number, status)?;
    Ok(reply(alloc, space, context, &told)?)
}

fn reply(
    alloc: Global,
    space: &Space,
    context: &Context<'_>,
    told: &Told,
) -> Result<Reply, Memory> {
    if context.is_json() {
        return seen_object(alloc, Code::Done, object(alloc, space, told));
    }
    Ok(seen_text(Code::Done, lines(alloc, space, told)?))
}

fn told_of(alloc: Global, space: &mut Space, number: u32, status: Status) -> Result<Told, Memory> {
    let words = words_of(alloc, space, number, status)?;
    Ok(Told {
        number,
        status,
        words,
        answers: answers_of(alloc, space, number)?,
    })
}

// The words about its status.
fn words_of(
    alloc: Global,
    space: &mut Space,
    number: u32,
    status: Status,
) -> Result<String, Memory> {
    if status == Status::Waits {
        let words = waiting_words(alloc, space, number)?;
        return Ok(format!(in alloc; "waits: {words}")?);
    }
    match standing_of(space, number) {
        Some(standing) => done_words(alloc, standing),
        None => Ok(String::from_str(alloc, status_word(status))?),
    }
}

fn waiting_words(alloc: Global, space: &mut Space, number: u32) -> Result<String, Memory> {
    let reason = space.question(alloc, number)?;
    reason_words(alloc, space, reason.as_ref())
}

fn standing_of(space: &Space, number: u32) -> Option<&Standing> {
    for standing in space.state.order().as_slice() {
        if space.number_at(standing.held) == Some(number) {
            return Some(standing);
        }
    }
    None
}

fn waiting_of(space: &Space, number: u32) -> Option<&Waiting> {
    for waiting in space.state.waiting().as_slice() {
        if space.number_at(waiting.held) == Some(number) {
            return Some(waiting);
        }
    }
    None
}

// `done in K steps, with L unknowns`.
fn done_words(alloc: Global, standing: &Standing) -> Result<String, Memory> {
    let mut words = Text::from_str(alloc, "done in ");
    add_count(&mut words, standing.steps.len(), "step");
    words.push_str(", with ");
    let mut drawn = 0u32;
    for op in standing.ops.as_slice() {
        drawn = drawn.saturating_add(op.drawn);
    }
    add_count(&mut words, drawn as usize, "unknown");
    Ok(words.done()?)
}

// What the update wrote, if it stands.
fn writes_of(space: &Space, number: u32) -> &[Write] {
    match standing_of(space, number) {
        Some(standing) => standing.writes.as_slice(),
        None => &[],
    }
}

// The choices of the answers that the update took; if it neither stands nor waits, the choices of the answers that it was given.
fn answers_of(alloc: Global, space: &Space, number: u32) -> Result<Vec<String>, Memory> {
    if let Some(standing) = standing_of(space, number) {
        return choices(alloc, space, standing.answers.as_slice());
    }
    if let Some(waiting) = waiting_of(space, number) {
        return choices(alloc, space, waiting.answers.as_slice());
    }
    given(alloc, space, number)
}

fn choices(alloc: Global, space: &Space, answers: &[Given]) -> Result<Vec<String>, Memory> {
    let mut choices = Lines::new(alloc);
    for given in answers {
        let answer = space.said_answer(alloc, given)?;
        choices.made(choice_text(alloc, space, &answer.choice));
    }
    Ok(choices.done()?)
}

// The choices of the answers in the log, without the answers that were taken back.
fn given(alloc: Global, space: &Space, number: u32) -> Result<Vec<String>, Memory> {
    let mut given = Vec::new(alloc);
    for recorded in space.records.iter() {
        for said in recorded.record.lines.iter() {
            match &said.line {
                Line::Answer(answered, answer) if *answered == number => {
                    given.push(choice_text(alloc, space, &answer.choice)?)?;
                }
                Line::UndoAnswers(numbers) if numbers.contains(&number) => given.clear(),
                _ => (),
            }
        }
    }
    Ok(given)
}

fn choice_text(alloc: Global, space: &Space, choice: &Choice) -> Result<String, Memory> {
    let mut text = Text::new(alloc);
    add_choice(&mut text, space.relations.as_slice(), choice);
    Ok(text.done()?)
}

fn lines(alloc: Global, space: &Space, told: &Told) -> Result<Vec<String>, Memory> {
    let mut lines = Lines::new(alloc);
    lines.made(first_line(alloc, space, told.number));
    for answer in told.answers.iter() {
        lines.made(format!(in alloc; "  answer {answer}"));
    }
    let words = told.words.as_str();
    lines.made(format!(in alloc; "  {words}"));
    for write in writes_of(space, told.number) {
        lines.made(write_text(alloc, space, write, "  + ", "  - "));
    }
    Ok(lines.done()?)
}

fn first_line(alloc: Global, space: &Space, number: u32) -> Result<String, Memory> {
    let time = space.time_of(number);
    let curator = space.curator_of(number);
    let line = space.update_text(alloc, number)?;
    Ok(format!(in alloc; "{number}  {time}  {curator}  {line}")?)
}

fn object(alloc: Global, space: &Space, told: &Told) -> Object {
    let mut object = object_of(alloc, "update");
    object.number("number", i64::from(told.number));
    object.text("curator", space.curator_of(told.number));
    object.text("time", space.time_of(told.number));
    object.made("line", space.update_text(alloc, told.number));
    object.text("state", status_word(told.status));
    object.items("answers", text_items(alloc, told.answers.as_slice()));
    object.items(
        "writes",
        write_items(alloc, space, writes_of(space, told.number)),
    );
    object
}

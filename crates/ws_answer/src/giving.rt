//! Giving answers.

use crate::records::steps_of;
use def_memory::Memory;
use std::alloc::Global;
use ws_fault::{Refusal, Status};
use ws_lines::Deed;
use ws_print::Lines;
use ws_question::{AskedNow, asked_now, count_text, question_next, reason_words};
use ws_report::{Done, Report, recorded, refuse_made, spent_fault};
use ws_run::Reason;
use ws_space::Space;
use ws_state::{Mark, Told};
use ws_written::Line;

/// An answer to give: its line, and the line as the reply prints it.
#[derive(Drop)]
pub(crate) struct Given {
    pub line: Line,
    pub text: String,
}

/// What the report says after a repair: the number of violations that are left, and the commands that may follow.
#[derive(Drop)]
struct Left {
    also: Vec<String>,
    next: Vec<String>,
}

/// Gives an answer to an update that waits. It is refused if the steps do not suffice, or if something other than a question is
/// in its way.
pub(crate) fn give(
    alloc: Global,
    space: &mut Space,
    number: u32,
    given: Given,
) -> Result<Done, Refusal> {
    let Given { line, text } = given;
    let report = taken(alloc, space, number, &line, text);
    recorded(alloc, report, line)
}

fn taken(
    alloc: Global,
    space: &mut Space,
    number: u32,
    line: &Line,
    text: String,
) -> Result<Report, Refusal> {
    let mark = space.state.mark();
    let Told { reason, .. } = space.take(alloc, line)?;
    match reason {
        None => done(alloc, space, number, text, mark),
        Some(Reason::Asks(question)) => {
            let asked = asked_now(alloc, space, number, question)?;
            asking(alloc, Status::Waits, "waits", text, asked)
        }
        Some(Reason::TooLong(made)) => {
            let steps = steps_of(space, number);
            Err(spent_fault(alloc, space, steps, &made)?)
        }
        Some(other) => cannot(alloc, space, number, &other),
    }
}

fn done(
    alloc: Global,
    space: &Space,
    number: u32,
    text: String,
    mark: Mark,
) -> Result<Report, Refusal> {
    let Left { also, next } = left_of(alloc, space, number)?;
    let effect = space.state.effect_since(alloc, mark)?;
    let mut report = Report::with_effect(alloc, Status::Done, "done", text, effect);
    report.number = Some(number);
    report.also = also;
    report.next = next;
    Ok(report)
}

/// The report of an update that asks.
pub(crate) fn asking(
    alloc: Global,
    status: Status,
    did: &'static str,
    text: String,
    asked: AskedNow,
) -> Result<Report, Refusal> {
    match question_next(alloc, &asked) {
        Ok(next) => {
            let mut report = Report::asking(alloc, status, did, text, asked);
            report.next = next;
            Ok(report)
        }
        Err(_) => {
            drop(asked);
            Err(Refusal::Memory)
        }
    }
}

// The refusal of an update that is stopped by something other than a question.
fn cannot(alloc: Global, space: &Space, number: u32, reason: &Reason) -> Result<Report, Refusal> {
    let reason = reason_words(alloc, space, Some(reason))?;
    let words = format!(in alloc; "update {number} cannot go on: {reason}");
    refuse_made(alloc, words, format!(in alloc; "undo {number}"))
}

// For a repair: the words for the violations of its mapping that are left.
fn left_of(alloc: Global, space: &Space, number: u32) -> Result<Left, Memory> {
    let Some(mapping) = fixed_by(space, number) else {
        return Ok(Left {
            also: Vec::new(alloc),
            next: Vec::new(alloc),
        });
    };
    let count = space.count_violations(alloc, mapping)?;
    count_left(alloc, space.mapping_name(mapping), count)
}

// The words for `count` violations of the mapping that are left.
fn count_left(alloc: Global, name: &str, count: usize) -> Result<Left, Memory> {
    let mut also = Lines::new(alloc);
    let mut next = Lines::new(alloc);
    if count == 0 {
        also.made(format!(in alloc; "{name} has no violation now"));
        next.made(format!(in alloc; "adopt {name}"));
    } else {
        also.made(left_text(alloc, name, count));
        next.push_str("questions");
    }
    Ok(Left {
        also: also.done()?,
        next: next.done()?,
    })
}

fn left_text(alloc: Global, name: &str, count: usize) -> Result<String, Memory> {
    let count = count_text(alloc, count, "violation")?;
    Ok(format!(in alloc; "{count} of {name} left")?)
}

// The mapping that the update repairs; None if it is no repair.
fn fixed_by(space: &Space, number: u32) -> Option<u16> {
    match &space.state.update(number)?.deed {
        Deed::Fix(mapping, _) => Some(*mapping),
        _ => None,
    }
}

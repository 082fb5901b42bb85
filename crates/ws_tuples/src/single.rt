//! Changes that are one update.

use crate::bounds::{check_bounds, refuse_asking};
use def_memory::Memory;
use std::alloc::Global;
use ws_command::Bounds;
use ws_fault::{Refusal, Status};
use ws_hint::Hints;
use ws_question::{AskedNow, asked_now, count_text, question_next};
use ws_report::{Done, Note, Report, Taken, recorded, take_update, told_line};
use ws_run::{Question, Reason};
use ws_space::Space;
use ws_state::{Effect, Mark};
use ws_written::{Line, NewFact, Update};

/// What the report of an update says beside its effect or its question.
#[derive(Drop)]
struct Words {
    text: String,
    notes: Vec<Note>,
    next: Vec<String>,
}

/// Takes an update within its bounds, and reports it.
pub(crate) fn single(
    alloc: Global,
    space: &mut Space,
    update: Update,
    bounds: &Bounds,
) -> Result<Done, Refusal> {
    let mark = space.state.mark();
    let Taken {
        number,
        line,
        reason,
    } = take_update(alloc, space, bounds.steps, update)?;
    let report = match question_of(reason) {
        Some(question) => waits(alloc, space, number, &line, question, bounds.only),
        None => stands(alloc, space, number, &line, bounds, mark),
    };
    recorded(alloc, report, line)
}

// The question, if the update waits for its answer.
fn question_of(reason: Option<Reason>) -> Option<Question> {
    match reason {
        Some(Reason::Asks(question)) => Some(question),
        _ => None,
    }
}

fn stands(
    alloc: Global,
    space: &Space,
    number: u32,
    line: &Line,
    bounds: &Bounds,
    mark: Mark,
) -> Result<Report, Refusal> {
    let effect = space.state.effect_since(alloc, mark)?;
    match standing_words(alloc, space, number, line, bounds, &effect) {
        Ok(Words { text, notes, next }) => {
            let mut report = Report::with_effect(alloc, Status::Done, "done", text, effect);
            report.number = Some(number);
            report.notes = notes;
            report.next = next;
            Ok(report)
        }
        Err(refusal) => {
            drop(effect);
            Err(refusal)
        }
    }
}

// The words for an update that stands. It is refused if it is not within its bounds.
fn standing_words(
    alloc: Global,
    space: &Space,
    number: u32,
    line: &Line,
    bounds: &Bounds,
    effect: &Effect,
) -> Result<Words, Refusal> {
    check_bounds(alloc, space, line, bounds, effect)?;
    let text = told_line(alloc, space, line)?;
    let mut notes = hints_of(alloc, space, line, number)?;
    let mut next = Vec::new(alloc);
    let along = along(line, effect);
    if 0 < along {
        notes.push(along_note(alloc, along)?)?;
        next.push(format!(in alloc; "undo {number}")?)?;
    }
    Ok(Words { text, notes, next })
}

fn along_note(alloc: Global, along: usize) -> Result<Note, Memory> {
    let count = count_text(alloc, along, "tuple")?;
    let words = format!(in alloc; "{count} went that you did not name")?;
    Ok(Note::of(alloc, words))
}

fn waits(
    alloc: Global,
    space: &Space,
    number: u32,
    line: &Line,
    question: Question,
    only: bool,
) -> Result<Report, Refusal> {
    let asked = asked_now(alloc, space, number, question)?;
    match waiting_words(alloc, space, line, &asked, only) {
        Ok(Words { text, notes, next }) => {
            let mut report = Report::asking(alloc, Status::Waits, "waits", text, asked);
            report.notes = notes;
            report.next = next;
            Ok(report)
        }
        Err(refusal) => {
            drop(asked);
            Err(refusal)
        }
    }
}

// The words for an update that asks. It is refused under `--only`.
fn waiting_words(
    alloc: Global,
    space: &Space,
    line: &Line,
    asked: &AskedNow,
    only: bool,
) -> Result<Words, Refusal> {
    if only {
        return refuse_asking(alloc, space, asked);
    }
    Ok(Words {
        text: told_line(alloc, space, line)?,
        notes: hints_of(alloc, space, line, asked.number)?,
        next: question_next(alloc, asked)?,
    })
}

// The number of tuples that went beyond the number that the deletion names.
fn along(line: &Line, effect: &Effect) -> usize {
    match line {
        Line::Update(numbered) => match &numbered.update {
            Update::Delete(facts) => effect.went.len().saturating_sub(facts.len()),
            _ => 0,
        },
        _ => 0,
    }
}

// The tuples that a line inserts.
fn inserted(line: &Line) -> &[NewFact] {
    match line {
        Line::Update(numbered) => match &numbered.update {
            Update::Insert(facts) => facts.as_slice(),
            Update::Change(_, new) => std::slice::from_ref(new),
            _ => &[],
        },
        _ => &[],
    }
}

// The hints about the tuples that the update inserts.
fn hints_of(alloc: Global, space: &Space, line: &Line, number: u32) -> Result<Vec<Note>, Memory> {
    let mut notes = Vec::new(alloc);
    let mut hints = Hints::new(alloc);
    add_hints(space, inserted(line), number, &mut hints, &mut notes)?;
    Ok(notes)
}

fn add_hints(
    space: &Space,
    facts: &[NewFact],
    number: u32,
    hints: &mut Hints,
    notes: &mut Vec<Note>,
) -> Result<(), Memory> {
    for fact in facts {
        hints.add(space, fact, number, notes)?;
    }
    Ok(())
}

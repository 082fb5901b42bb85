//! The changes, each by its kind.

use def_memory::Memory;
use std::alloc::Global;
use ws_answer::{SaidAnswer, answer, answer_several, redo, undo, undo_answers};
use ws_command::Change;
use ws_declare::{adopt, declare_mapping, declare_relation, drop_mapping};
use ws_fault::Refusal;
use ws_question::Shown;
use ws_reply::{Context, Outcome};
use ws_report::{Done, Report, refuse};
use ws_space::Space;
use ws_tuples::{delete, fill, insert, replace};

/// Does the change over the workspace, and makes its reply. `past` is the workspace after the record of `--at`, unless that
/// record is the last one or was folded.
///
/// It is refused if the change does not fit the workspace, or if its steps do not suffice. If the space took a line by then, it
/// is of no use any more.
pub fn change(
    alloc: Global,
    space: &mut Space,
    shown: &mut Shown,
    past: Option<&mut Space>,
    context: &Context<'_>,
    change: Change,
) -> Result<Outcome, Refusal> {
    let done = match change {
        Change::Answer {
            numbers,
            choice,
            at,
        } => {
            let said = SaidAnswer {
                numbers,
                choice,
                at,
            };
            answered(alloc, space, shown, past, context, &said)
        }
        other => done_alone(alloc, space, other),
    };
    match done {
        Ok(done) => outcome(alloc, space, shown, context, done),
        Err(refusal) => Err(refusal),
    }
}

fn answered(
    alloc: Global,
    space: &mut Space,
    shown: &mut Shown,
    past: Option<&mut Space>,
    context: &Context<'_>,
    said: &SaidAnswer,
) -> Result<Done, Refusal> {
    match said.numbers.as_slice() {
        [_] => answer(alloc, space, shown, past, context, said),
        numbers => answer_several(alloc, space, numbers, &said.choice),
    }
}

// Does a change that is no answer.
fn done_alone(alloc: Global, space: &mut Space, change: Change) -> Result<Done, Refusal> {
    match change {
        Change::Relation(relation) => declare_relation(alloc, space, relation),
        Change::Mapping(rule) => declare_mapping(alloc, space, rule),
        Change::Adopt(name, steps) => adopt(alloc, space, name.as_str(), steps),
        Change::Drop(name) => drop_mapping(alloc, space, name),
        Change::Insert(facts, bounds) => insert(alloc, space, facts, &bounds),
        Change::Delete(patterns, bounds) => delete(alloc, space, patterns.as_slice(), &bounds),
        Change::Fill(unknown, value, bounds) => fill(alloc, space, &unknown, value, &bounds),
        Change::Replace(old, new, bounds) => replace(alloc, space, &old, &new, &bounds),
        Change::Undo(numbers) => undo(alloc, space, numbers.as_slice()),
        Change::UndoAnswers(numbers) => undo_answers(alloc, space, numbers.as_slice()),
        Change::Redo(numbers) => redo(alloc, space, numbers.as_slice()),
        _ => refuse(alloc, "it is done elsewhere", ""),
    }
}

// Notes that the question of the change is shown, and makes its reply.
fn outcome(
    alloc: Global,
    space: &Space,
    shown: &mut Shown,
    context: &Context<'_>,
    done: Done,
) -> Result<Outcome, Refusal> {
    match show(shown, context, &done.report) {
        Ok(()) => replied(alloc, space, context, done),
        Err(_) => {
            drop(done);
            Err(Refusal::Memory)
        }
    }
}

// The lines of the change with its reply.
fn replied(
    alloc: Global,
    space: &Space,
    context: &Context<'_>,
    done: Done,
) -> Result<Outcome, Refusal> {
    let Done { report, lines } = done;
    match report.into_reply(alloc, space, context, !lines.is_empty()) {
        Ok(reply) => Ok(Outcome {
            reply,
            lines,
            updates: Vec::new(alloc),
        }),
        Err(_) => {
            drop(lines);
            Err(Refusal::Memory)
        }
    }
}

// Notes that the question is shown, unless the change was only tried.
fn show(shown: &mut Shown, context: &Context<'_>, report: &Report) -> Result<(), Memory> {
    match &report.question {
        Some(asked) if !context.trying => shown.put(asked),
        _ => Ok(()),
    }
}

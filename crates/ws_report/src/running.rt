//! Taking updates, one at a time.

use crate::faults::refuse;
use crate::spending::spent_fault;
use std::alloc::{AllocError, Global};
use ws_fault::Refusal;
use ws_print::{Text, add_line, add_update};
use ws_run::Reason;
use ws_space::{Space, unknown_of};
use ws_state::Told;
use ws_written::{Line, NumberedUpdate, Update};

/// An update that was taken: its number, its line, and the reason if it waits.
#[derive(Drop)]
pub struct Taken {
    pub number: u32,
    pub line: Line,
    pub reason: Option<Reason>,
}

fn next_number(alloc: Global, space: &Space) -> Result<u32, Refusal> {
    match space.state.last().checked_add(1) {
        Some(number) => Ok(number),
        None => refuse(alloc, "no number is left for an update", ""),
    }
}

/// Takes an update under the next number. It is refused if it names an unknown that is not there, or if its steps do not suffice.
pub fn take_update(
    alloc: Global,
    space: &mut Space,
    steps: u32,
    update: Update,
) -> Result<Taken, Refusal> {
    match next_number(alloc, space) {
        Ok(number) => take_numbered(
            alloc,
            space,
            NumberedUpdate {
                number,
                steps,
                update,
            },
        ),
        Err(refusal) => {
            drop(update);
            Err(refusal)
        }
    }
}

fn take_numbered(
    alloc: Global,
    space: &mut Space,
    numbered: NumberedUpdate,
) -> Result<Taken, Refusal> {
    let number = numbered.number;
    let steps = numbered.steps;
    let line = Line::Update(numbered);
    match take_line(alloc, space, steps, &line) {
        Ok(reason) => Ok(Taken {
            number,
            line,
            reason,
        }),
        Err(refusal) => {
            drop(line);
            Err(refusal)
        }
    }
}

// Takes the line of an update, and returns the reason if it waits. It is refused if it names an unknown that is not there, or if
// its steps do not suffice.
fn take_line(
    alloc: Global,
    space: &mut Space,
    steps: u32,
    line: &Line,
) -> Result<Option<Reason>, Refusal> {
    let Told { reason, .. } = space.take(alloc, line)?;
    match reason {
        Some(Reason::NotThere(name)) => {
            Err(Refusal::Fault(space.lost(alloc, unknown_of(name))?))
        }
        Some(Reason::TooLong(made)) => Err(spent_fault(alloc, space, steps, &made)?),
        reason => Ok(reason),
    }
}

/// The line as a reply prints it; an update stands without its number and its budget.
pub fn told_line(alloc: Global, space: &Space, line: &Line) -> Result<String, AllocError> {
    let mut text = Text::new(alloc);
    let relations = space.relations.as_slice();
    match line {
        Line::Update(numbered) => add_update(&mut text, relations, &numbered.update),
        other => add_line(&mut text, relations, other),
    }
    text.done()
}

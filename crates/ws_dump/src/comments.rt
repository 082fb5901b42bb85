//! The comments of a dump: what its base contains, the names of its nulls, and the updates that wait.

use crate::renaming::Renaming;
use base_types::{Memory, Null};
use std::alloc::{AllocError, Global};
use ws_print::{Lines, Text, add_unknown};
use ws_space::{Space, unknown_of};
use ws_written::STEPS;

/// Adds the comments of a dump; its base contains the first `cut` of the updates that stand.
pub(crate) fn add_comments(
    alloc: Global,
    lines: &mut Lines,
    space: &Space,
    renaming: &Renaming,
    cut: usize,
) -> Result<(), Memory> {
    add_base(alloc, lines, space, cut)?;
    for null in renaming.places.keys() {
        lines.made(name_line(alloc, space, renaming, *null));
    }
    add_drawn(alloc, lines, space, renaming, cut);
    for number in space.waiting_numbers(alloc)? {
        lines.made(waiting_line(alloc, space, number));
    }
    Ok(())
}

// Adds the number of updates that the base contains.
fn add_base(alloc: Global, lines: &mut Lines, space: &Space, cut: usize) -> Result<(), AllocError> {
    let Some(last) = cut.checked_sub(1) else {
        return Ok(());
    };
    let number = number_at(space, last);
    let words = format!(in alloc; "# the base has the first {cut} updates in it, up to u{number}")?;
    lines.push(words);
    Ok(())
}

// The number of the update at a place of the order.
fn number_at(space: &Space, place: usize) -> u32 {
    match space.state.order().get(place) {
        Some(standing) => space.number_at(standing.held).unwrap_or(0),
        None => 0,
    }
}

// `# ?U.P of the dump is ?U.P`.
fn name_line(
    alloc: Global,
    space: &Space,
    renaming: &Renaming,
    null: Null,
) -> Result<String, AllocError> {
    let mut line = Text::from_str(alloc, "# ");
    add_unknown(&mut line, unknown_of(renaming.null(null)));
    line.push_str(" is ");
    add_unknown(&mut line, unknown_of(space.state.names().name_of(null)));
    line.done()
}

// Adds the names of the nulls that the updates of the dump draw.
fn add_drawn(alloc: Global, lines: &mut Lines, space: &Space, renaming: &Renaming, cut: usize) {
    for standing in space.state.order().as_slice().iter().skip(cut) {
        for op in standing.ops.as_slice() {
            for place in 0..op.drawn {
                let null = Null {
                    update: op.number,
                    attempt: 0,
                    place: place.saturating_add(1),
                };
                lines.made(name_line(alloc, space, renaming, null));
            }
        }
    }
}

// `# waits: CURATOR N [steps S] UPDATE`.
fn waiting_line(alloc: Global, space: &Space, number: u32) -> Result<String, Memory> {
    let curator = space.curator_of(number);
    let mut line = Text::new(alloc);
    write!(line, "# waits: {curator} {number} ");
    let steps = steps_of(space, number);
    if steps != STEPS {
        write!(line, "steps {steps} ");
    }
    line.made(space.update_text(alloc, number));
    Ok(line.done()?)
}

fn steps_of(space: &Space, number: u32) -> u32 {
    match space.state.update(number) {
        Some(update) => update.steps,
        None => STEPS,
    }
}

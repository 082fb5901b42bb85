//! `drop`.

use std::alloc::Global;
use ws_fault::{Refusal, Status};
use ws_report::{Done, Note, Report, Taken, recorded, take_update, told_line};
use ws_space::Space;
use ws_written::{Line, STEPS, Update};

/// Takes a mapping away.
pub fn drop_mapping(alloc: Global, space: &mut Space, name: String) -> Result<Done, Refusal> {
    let in_force = is_in_force(space, name.as_str());
    let Taken { number, line, .. } = take_update(alloc, space, STEPS, Update::Drop(name))?;
    let report = dropped(alloc, space, number, &line, in_force);
    recorded(alloc, report, line)
}

fn dropped(
    alloc: Global,
    space: &Space,
    number: u32,
    line: &Line,
    in_force: bool,
) -> Result<Report, Refusal> {
    let text = told_line(alloc, space, line)?;
    let mut notes = Vec::new(alloc);
    if in_force {
        let words = String::from_str(alloc, "its tuples stay")?;
        notes.push(Note::of(alloc, words))?;
    }
    let mut report = Report::of(alloc, Status::Done, "done", text);
    report.number = Some(number);
    report.notes = notes;
    Ok(report)
}

/// Whether the mapping with this name is in force.
pub(crate) fn is_in_force(space: &Space, name: &str) -> bool {
    match space.mapping(name) {
        Some(mapping) => space.state.in_force().contains(&mapping),
        None => false,
    }
}

//! Lines that replay the log.

use crate::records::waiting_numbers;
use base_types::TupleList;
use def_memory::Memory;
use std::alloc::{AllocError, Global};
use ws_fault::{Refusal, Status as Comes};
use ws_print::Lines;
use ws_question::{reason_words, status_word};
use ws_report::{AgainTold, Done, Note, Report, recorded, told_line};
use ws_space::Space;
use ws_state::{Again, Effect, FilledList, Moved, MovedList, Replayed, Status, Told};
use ws_written::Line;

/// What the report of a replay needs: the updates that were named, hints, and the commands that may follow if nothing waits.
#[derive(Drop)]
pub(crate) struct ReplayWords {
    pub numbers: Vec<u32>,
    pub notes: Vec<Note>,
    pub next: Vec<String>,
}

/// Does a line that replays the log, and reports what has changed.
pub(crate) fn replay(
    alloc: Global,
    space: &mut Space,
    line: Line,
    asked: ReplayWords,
) -> Result<Done, Refusal> {
    let report = replayed(alloc, space, &line, asked);
    recorded(alloc, report, line)
}

fn replayed(
    alloc: Global,
    space: &mut Space,
    line: &Line,
    asked: ReplayWords,
) -> Result<Report, Refusal> {
    match reported(alloc, space, line, asked.numbers.as_slice()) {
        Ok(report) => Ok(with_words(report, asked)),
        Err(refusal) => {
            drop(asked);
            Err(refusal)
        }
    }
}

// Does the line, and reports it. The report has commands that may follow only if one of the updates waits.
fn reported(
    alloc: Global,
    space: &mut Space,
    line: &Line,
    numbers: &[u32],
) -> Result<Report, Refusal> {
    let before = in_force(alloc, space)?;
    let replayed = taken(alloc, space, line)?;
    let again = again_of(alloc, space, &replayed, numbers)?;
    let next = questions_of(alloc, again.as_slice())?;
    let mut report = report_of(alloc, space, line, before.as_slice(), &replayed)?;
    report.again = again;
    report.next = next;
    Ok(report)
}

// The mappings in force.
fn in_force(alloc: Global, space: &Space) -> Result<Vec<u16>, AllocError> {
    let mut numbers = Vec::new(alloc);
    numbers.extend_from_slice(space.state.in_force())?;
    Ok(numbers)
}

// Takes the line, and returns what the replay changed.
fn taken(alloc: Global, space: &mut Space, line: &Line) -> Result<Replayed, Refusal> {
    let Told { replayed, .. } = space.take(alloc, line)?;
    match replayed {
        Some(replayed) => Ok(replayed),
        None => Err(Refusal::Memory),
    }
}

// The report of the line, with the mappings that are no longer in force or in force again.
fn report_of(
    alloc: Global,
    space: &Space,
    line: &Line,
    before: &[u16],
    replayed: &Replayed,
) -> Result<Report, Memory> {
    let also = forces_told(alloc, space, before)?;
    let text = told_line(alloc, space, line)?;
    let effect = effect_of(alloc, replayed)?;
    let mut report = Report::with_effect(alloc, Comes::Done, "done", text, effect);
    report.also = also;
    Ok(report)
}

// Adds the hints to the report, and the commands that may follow if nothing waits.
fn with_words(report: Report, asked: ReplayWords) -> Report {
    let ReplayWords { notes, next, .. } = asked;
    let mut report = report;
    report.notes = notes;
    if report.next.is_empty() {
        report.next = next;
    } else {
        report.status = Comes::Waits;
    }
    report
}

// The commands that may follow if one of the updates waits.
fn questions_of(alloc: Global, again: &[AgainTold]) -> Result<Vec<String>, AllocError> {
    let mut next = Vec::new(alloc);
    if one_waits(again) {
        next.push(String::from_str(alloc, "questions")?)?;
    }
    Ok(next)
}

fn one_waits(again: &[AgainTold]) -> bool {
    for one in again {
        if one.now == "waits" {
            return true;
        }
    }
    false
}

// The effect of the replay. No mapping is noted for what came and went.
fn effect_of(alloc: Global, replayed: &Replayed) -> Result<Effect, Memory> {
    let came = moved_of(alloc, &replayed.came)?;
    let went = moved_of(alloc, &replayed.went)?;
    Ok(Effect {
        came,
        went,
        filled: FilledList::new(alloc),
        merged: 0,
    })
}

// Tuples that came or went, without a mapping.
fn moved_of(alloc: Global, tuples: &TupleList) -> Result<MovedList, Memory> {
    let mut moved = MovedList::new(alloc);
    for tuple in tuples.as_slice() {
        moved.push(Moved {
            tuple: tuple.share()?,
            by: None,
        })?;
    }
    Ok(moved)
}

// The reports of the other updates that changed, and of the named ones that wait now.
fn again_of(
    alloc: Global,
    space: &mut Space,
    replayed: &Replayed,
    numbers: &[u32],
) -> Result<Vec<AgainTold>, Memory> {
    let mut told = Vec::new(alloc);
    add_others(alloc, space, &mut told, replayed.again.as_slice())?;
    add_waiting(alloc, space, &mut told, numbers)?;
    Ok(told)
}

fn add_others(
    alloc: Global,
    space: &mut Space,
    told: &mut Vec<AgainTold>,
    others: &[Again],
) -> Result<(), Memory> {
    for again in others {
        told.push(again_told(alloc, space, *again)?)?;
    }
    Ok(())
}

fn add_waiting(
    alloc: Global,
    space: &mut Space,
    told: &mut Vec<AgainTold>,
    numbers: &[u32],
) -> Result<(), Memory> {
    let waiting = waiting_numbers(alloc, space)?;
    for number in numbers {
        if waiting.contains(number) {
            let again = Again {
                number: *number,
                was: Status::Waits,
                is: Status::Waits,
            };
            told.push(again_told(alloc, space, again)?)?;
        }
    }
    Ok(())
}

// Lines for the mappings that are no longer in force, and for the mappings that are in force again.
fn forces_told(alloc: Global, space: &Space, before: &[u16]) -> Result<Vec<String>, Memory> {
    let after = space.state.in_force();
    let mut told = Lines::new(alloc);
    add_apart(alloc, space, &mut told, before, after, "no longer in force");
    add_apart(alloc, space, &mut told, after, before, "in force again");
    Ok(told.done()?)
}

// Adds a line for each mapping that is in `ones` alone.
fn add_apart(
    alloc: Global,
    space: &Space,
    told: &mut Lines,
    ones: &[u16],
    others: &[u16],
    how: &str,
) {
    for mapping in ones {
        if !others.contains(mapping) {
            let name = space.mapping_name(*mapping);
            told.made(format!(in alloc; "mapping {name} is {how}"));
        }
    }
}

// The report of an update that changed.
fn again_told(alloc: Global, space: &mut Space, again: Again) -> Result<AgainTold, Memory> {
    let number = again.number;
    let how = again_words(alloc, space, again)?;
    let line = space.update_text(alloc, number)?;
    Ok(AgainTold {
        number,
        now: status_word(again.is),
        words: format!(in alloc; "{number} {how}: {line}")?,
    })
}

fn again_words(alloc: Global, space: &mut Space, again: Again) -> Result<String, Memory> {
    let words = match (again.is, again.was) {
        (Status::Stands, Status::Stands) => "did something else now",
        (Status::Stands, _) => "is done now",
        (Status::GivenUp, _) => "is given up",
        _ => {
            let reason = space.question(alloc, again.number)?;
            let reason = reason_words(alloc, space, reason.as_ref())?;
            return Ok(format!(in alloc; "waits now ({reason})")?);
        }
    };
    Ok(String::from_str(alloc, words)?)
}

//! `undo` and `redo`.

use crate::records::{answered_numbers, undone_numbers};
use crate::replaying::{ReplayWords, replay};
use def_memory::Memory;
use std::alloc::{AllocError, Global};
use std::collections::BTreeSet;
use ws_fault::Refusal;
use ws_print::Lines;
use ws_question::status_of;
use ws_report::{Done, Note, ranges_text, refuse, refuse_made};
use ws_space::Space;
use ws_written::Line;

/// The numbers that a command changes, in rising order, and the others that it names.
#[derive(Drop)]
struct Parted {
    take: Vec<u32>,
    rest: Vec<u32>,
}

impl Parted {
    fn add(&mut self, number: u32, takes: bool) -> Result<(), AllocError> {
        if takes {
            self.take.push(number)?;
        } else {
            self.rest.push(number)?;
        }
        Ok(())
    }
}

// Splits the numbers, each taken once: `take` gets the updates that are undone (or not, by `is_undone`), `rest` all others.
fn part(alloc: Global, space: &Space, numbers: &[u32], is_undone: bool) -> Result<Parted, Refusal> {
    let rising = in_order(alloc, numbers)?;
    let fit = undone_numbers(alloc, space, is_undone)?;
    let mut parted = Parted {
        take: Vec::new(alloc),
        rest: Vec::new(alloc),
    };
    for number in &rising {
        parted.add(*number, fit.contains(number))?;
    }
    Ok(parted)
}

fn in_order(alloc: Global, numbers: &[u32]) -> Result<BTreeSet<u32>, Refusal> {
    let mut rising = BTreeSet::new(alloc);
    for number in numbers {
        rising.insert(*number)?;
    }
    Ok(rising)
}

// A hint about these numbers; none if there are no numbers.
fn note_of(alloc: Global, words: &str, numbers: &[u32]) -> Result<Vec<Note>, Memory> {
    let mut notes = Vec::new(alloc);
    if let [_, ..] = numbers {
        let ranges = ranges_text(alloc, numbers)?;
        notes.push(Note::of(alloc, format!(in alloc; "{words}{ranges}")?))?;
    }
    Ok(notes)
}

// The numbers that `undo` changes. It is refused if there are none.
fn to_undo(alloc: Global, space: &Space, numbers: &[u32]) -> Result<Parted, Refusal> {
    let parted = part(alloc, space, numbers, false)?;
    if parted.take.is_empty() {
        drop(parted);
        return refuse_undone(alloc, space, numbers);
    }
    Ok(parted)
}

fn refuse_undone(alloc: Global, space: &Space, numbers: &[u32]) -> Result<Parted, Refusal> {
    let first = numbers.first().copied().unwrap_or(0);
    status_of(alloc, space, first)?;
    let words = format!(in alloc; "update {first} is undone already");
    refuse_made(
        alloc,
        words,
        format!(in alloc; "redo {first} brings it back"),
    )
}

/// Undoes updates. It is refused if none of them can be undone.
pub fn undo(alloc: Global, space: &mut Space, numbers: &[u32]) -> Result<Done, Refusal> {
    let parted = to_undo(alloc, space, numbers)?;
    let asked = undo_words(alloc, &parted)?;
    let Parted { take, rest } = parted;
    drop(rest);
    replay(alloc, space, Line::Undo(take), asked)
}

fn undo_words(alloc: Global, parted: &Parted) -> Result<ReplayWords, Memory> {
    let notes = note_of(
        alloc,
        "not there, or undone already: ",
        parted.rest.as_slice(),
    )?;
    let next = redo_next(alloc, parted.take.as_slice())?;
    let numbers = copy_of(alloc, parted.take.as_slice())?;
    Ok(ReplayWords {
        numbers,
        notes,
        next,
    })
}

// The command that brings these updates back.
fn redo_next(alloc: Global, numbers: &[u32]) -> Result<Vec<String>, Memory> {
    let ranges = ranges_text(alloc, numbers)?;
    let mut next = Lines::new(alloc);
    next.made(format!(in alloc; "redo {ranges}"));
    Ok(next.done()?)
}

/// Takes back the answers of updates. It is refused if each of the updates is undone or not there.
pub fn undo_answers(alloc: Global, space: &mut Space, numbers: &[u32]) -> Result<Done, Refusal> {
    let answered = to_take_back(alloc, space, numbers)?;
    if answered.is_empty() {
        drop(answered);
        return no_answers(alloc, numbers);
    }
    let asked = ReplayWords {
        numbers: copy_of(alloc, answered.as_slice())?,
        notes: Vec::new(alloc),
        next: Vec::new(alloc),
    };
    replay(alloc, space, Line::UndoAnswers(answered), asked)
}

// The updates whose answers are taken back.
fn to_take_back(alloc: Global, space: &Space, numbers: &[u32]) -> Result<Vec<u32>, Refusal> {
    let parted = to_undo(alloc, space, numbers)?;
    Ok(answered_of(alloc, space, parted.take.as_slice())?)
}

fn no_answers(alloc: Global, numbers: &[u32]) -> Result<Done, Refusal> {
    let ranges = ranges_text(alloc, numbers)?;
    let text = format!(in alloc; "undo {ranges} --answers")?;
    Ok(Done::nothing(alloc, "no answers", text))
}

// The updates that stand or wait with answers.
fn answered_of(alloc: Global, space: &Space, numbers: &[u32]) -> Result<Vec<u32>, Memory> {
    let all = answered_numbers(alloc, space)?;
    let mut answered = Vec::new(alloc);
    for number in numbers {
        if all.contains(number) {
            answered.push(*number)?;
        }
    }
    Ok(answered)
}

/// Does undone updates again. It is refused if none of them is undone.
pub fn redo(alloc: Global, space: &mut Space, numbers: &[u32]) -> Result<Done, Refusal> {
    let parted = part(alloc, space, numbers, true)?;
    if parted.take.is_empty() {
        drop(parted);
        return refuse_standing(alloc, space, numbers);
    }
    let asked = redo_words(alloc, &parted)?;
    let Parted { take, rest } = parted;
    drop(rest);
    replay(alloc, space, Line::Redo(take), asked)
}

fn refuse_standing(alloc: Global, space: &Space, numbers: &[u32]) -> Result<Done, Refusal> {
    let first = numbers.first().copied().unwrap_or(0);
    status_of(alloc, space, first)?;
    let words = format!(in alloc; "update {first} is not undone")?;
    refuse(alloc, words.as_str(), "")
}

fn redo_words(alloc: Global, parted: &Parted) -> Result<ReplayWords, Memory> {
    let notes = note_of(alloc, "not undone: ", parted.rest.as_slice())?;
    let numbers = copy_of(alloc, parted.take.as_slice())?;
    Ok(ReplayWords {
        numbers,
        notes,
        next: Vec::new(alloc),
    })
}

fn copy_of(alloc: Global, numbers: &[u32]) -> Result<Vec<u32>, AllocError> {
    let mut copy = Vec::new(alloc);
    copy.extend_from_slice(numbers)?;
    Ok(copy)
}

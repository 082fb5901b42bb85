//! The report of a change.

use crate::notes::Note;
use std::alloc::Global;
use ws_fault::Status;
use ws_question::AskedNow;
use ws_state::{Effect, FilledList, MovedList};

/// How the lines of text report what came, what went and what was filled. The object has all of it in each case.
#[derive(Clone, Copy, PartialEq, Eq)]
pub enum Telling {
    /// All of it, with the mapping of each tuple.
    Whole,
    /// What came and went.
    Brief,
    /// Not at all.
    Untold,
}

/// The updates of a change of several, split into done and waiting ones.
#[derive(Drop)]
pub struct Counted {
    pub numbers: Vec<u32>,
    pub waiting: Vec<u32>,
}

/// Another update that an undo or a redo changed: its number, its status now, and the words about it.
#[derive(Drop)]
pub struct AgainTold {
    pub number: u32,
    pub now: &'static str,
    pub words: String,
}

/// The report of a change: what it did, its line as it was done, and the number of its update; what came, went and was filled;
/// further lines, the question that it asks, the other updates that it changed, hints, and the commands that may follow.
pub struct Report {
    pub status: Status,
    pub did: &'static str,
    pub line: String,
    pub number: Option<u32>,
    pub effect: Effect,
    pub telling: Telling,
    pub also: Vec<String>,
    pub question: Option<AskedNow>,
    pub again: Vec<AgainTold>,
    pub notes: Vec<Note>,
    pub next: Vec<String>,
    pub counted: Option<Counted>,
}

impl Drop for Report {
    fn drop(self) {
        let Report {
            status: _,
            did: _,
            line: _,
            number: _,
            effect,
            telling: _,
            also: _,
            question,
            again: _,
            notes: _,
            next: _,
            counted,
        } = self;
        drop(effect);
        drop(question);
        drop(counted);
    }
}

impl Report {
    /// The report that the line did this, without an effect.
    pub fn of(alloc: Global, status: Status, did: &'static str, line: String) -> Report {
        Report::with_effect(alloc, status, did, line, no_effect(alloc))
    }

    /// The report that the line did this, with this effect.
    pub fn with_effect(
        alloc: Global,
        status: Status,
        did: &'static str,
        line: String,
        effect: Effect,
    ) -> Report {
        Report {
            status,
            did,
            line,
            number: None,
            effect,
            telling: Telling::Whole,
            also: Vec::new(alloc),
            question: None,
            again: Vec::new(alloc),
            notes: Vec::new(alloc),
            next: Vec::new(alloc),
            counted: None,
        }
    }

    /// The report that the update which the line said or answered asks a question.
    pub fn asking(
        alloc: Global,
        status: Status,
        did: &'static str,
        line: String,
        asked: AskedNow,
    ) -> Report {
        Report {
            status,
            did,
            line,
            number: Some(asked.number),
            effect: no_effect(alloc),
            telling: Telling::Whole,
            also: Vec::new(alloc),
            question: Some(asked),
            again: Vec::new(alloc),
            notes: Vec::new(alloc),
            next: Vec::new(alloc),
            counted: None,
        }
    }
}

/// The effect of nothing: no tuple came or went, and no unknown was filled.
pub fn no_effect(alloc: Global) -> Effect {
    Effect {
        came: MovedList::new(alloc),
        went: MovedList::new(alloc),
        filled: FilledList::new(alloc),
        merged: 0,
    }
}

//! The report of a load.

use crate::adding::added_text;
use crate::alike::add_alike;
use crate::rows::Inserted;
use base_types::Memory;
use std::alloc::{AllocError, Global};
use std::fmt::Write;
use ws_command::{Load, Source};
use ws_fault::Status;
use ws_hint::Hints;
use ws_print::{Text, add_count, add_escaped, add_ranges};
use ws_report::{Counted, Note, Report, Telling, no_effect};
use ws_space::Space;
use ws_state::{Effect, MovedList};
use ws_written::Update;

// The greatest number of hints about rows.
const HINTS: usize = 3;

/// What was loaded: the relation, the number of rows in the file, the number of rows that were skipped, and what became of the
/// others.
#[derive(Clone, Copy)]
pub(crate) struct Loading<'a> {
    pub relation: u32,
    pub rows: usize,
    pub skipped: usize,
    pub inserted: &'a Inserted,
}

// What the report says after the effect: hints, the commands that may follow, and which updates were made.
#[derive(Drop)]
struct Rest {
    notes: Vec<Note>,
    next: Vec<String>,
    counted: Option<Counted>,
}

/// `load NAME FILE`, or the number of lines in place of the file.
pub(crate) fn line_of(alloc: Global, load: &Load) -> Result<String, AllocError> {
    let name = load.relation.as_str();
    match &load.source {
        Source::File(path) => {
            let mut line = Text::new(alloc);
            write!(line, "load {name} ");
            add_escaped(&mut line, path.as_str());
            line.done()
        }
        Source::Lines(count) => format!(in alloc; "load {name} --lines {count}"),
    }
}

impl<'a> Loading<'a> {
    /// The report if nothing is to be recorded.
    pub fn nothing(&self, alloc: Global, line: String) -> Result<Report, AllocError> {
        let did = if 0 < self.inserted.there {
            "there already"
        } else {
            "nothing to do"
        };
        let mut also = Vec::new(alloc);
        also.push(self.counts(alloc)?)?;
        Ok(Report {
            status: Status::Nothing,
            did,
            line,
            number: None,
            effect: no_effect(alloc),
            telling: Telling::Untold,
            also,
            question: None,
            again: Vec::new(alloc),
            notes: Vec::new(alloc),
            next: Vec::new(alloc),
            counted: None,
        })
    }

    /// The report of the updates, which stand from place `first` on, and of their effect.
    pub fn report(
        &self,
        alloc: Global,
        space: &Space,
        line: String,
        first: usize,
        effect: Effect,
    ) -> Result<Report, Memory> {
        let (status, did) = self.outcome();
        let also = self.also(alloc, space, first, &effect.came)?;
        let rest = self.rest(alloc, space)?;
        Ok(Report {
            status,
            did,
            line,
            number: None,
            effect,
            telling: Telling::Untold,
            also,
            question: None,
            again: Vec::new(alloc),
            notes: rest.notes,
            next: rest.next,
            counted: rest.counted,
        })
    }

    fn rest(&self, alloc: Global, space: &Space) -> Result<Rest, Memory> {
        let notes = self.notes(alloc, space)?;
        let next = self.next(alloc)?;
        Ok(Rest {
            notes,
            next,
            counted: self.counted(alloc)?,
        })
    }

    fn outcome(&self) -> (Status, &'static str) {
        if self.inserted.waiting.is_empty() {
            return (Status::Done, "done");
        }
        (Status::Waits, "waits")
    }

    // The lines for what became of the rows, and for what the mappings added.
    fn also(
        &self,
        alloc: Global,
        space: &Space,
        first: usize,
        came: &MovedList,
    ) -> Result<Vec<String>, Memory> {
        let mut also = Vec::new(alloc);
        also.push(self.counts(alloc)?)?;
        if let Some(added) = added_text(alloc, space, first, came)? {
            also.push(added)?;
        }
        Ok(also)
    }

    // The commands that may follow.
    fn next(&self, alloc: Global) -> Result<Vec<String>, AllocError> {
        let mut next = Vec::new(alloc);
        if !self.inserted.waiting.is_empty() {
            next.push(String::from_str(alloc, "questions")?)?;
        }
        Ok(next)
    }

    // `N rows: K inserted, ..`.
    fn counts(&self, alloc: Global) -> Result<String, AllocError> {
        let mut text = Text::new(alloc);
        self.add_done(&mut text);
        self.add_others(&mut text);
        text.done()
    }

    fn add_done(&self, text: &mut Text) {
        add_count(text, self.rows, "row");
        let done = self.inserted.done.len();
        write!(text, ": {done} inserted");
        if 0 < done {
            text.push_str(", by ");
            add_ranges(text, self.inserted.done.as_slice());
        }
    }

    fn add_others(&self, text: &mut Text) {
        let there = self.inserted.there;
        if 0 < there {
            write!(text, ", {there} there already");
        }
        let skipped = self.skipped;
        if 0 < skipped {
            write!(text, ", {skipped} skipped");
        }
        let waits = self.inserted.waiting.len();
        if 0 < waits {
            write!(text, ", {waits} wait: ");
            add_ranges(text, self.inserted.waiting.as_slice());
        }
    }

    fn counted(&self, alloc: Global) -> Result<Option<Counted>, AllocError> {
        if self.inserted.done.is_empty() && self.inserted.waiting.is_empty() {
            return Ok(None);
        }
        Ok(Some(Counted {
            numbers: copied(alloc, self.inserted.done.as_slice())?,
            waiting: copied(alloc, self.inserted.waiting.as_slice())?,
        }))
    }

    fn notes(&self, alloc: Global, space: &Space) -> Result<Vec<Note>, Memory> {
        let mut notes = self.hints(alloc, space)?;
        add_alike(alloc, space, self.relation, &mut notes)?;
        add_proposed(alloc, space, &mut notes)?;
        Ok(notes)
    }

    // The first hints about rows that were inserted, and the number of further ones.
    fn hints(&self, alloc: Global, space: &Space) -> Result<Vec<Note>, Memory> {
        let mut all = self.row_hints(alloc, space)?;
        let more = all.len().saturating_sub(HINTS);
        all.truncate(HINTS);
        if 0 < more {
            let words = format!(in alloc; "and {more} more such hints")?;
            all.push(Note::of(alloc, words))?;
        }
        Ok(all)
    }

    fn row_hints(&self, alloc: Global, space: &Space) -> Result<Vec<Note>, Memory> {
        let mut all = Vec::new(alloc);
        let mut hints = Hints::new(alloc);
        for number in self.inserted.done.as_slice() {
            add_hints(alloc, space, &mut hints, *number, &mut all)?;
        }
        Ok(all)
    }
}

// Adds the hints about the tuple that an update inserted.
fn add_hints(
    alloc: Global,
    space: &Space,
    hints: &mut Hints,
    number: u32,
    notes: &mut Vec<Note>,
) -> Result<(), Memory> {
    let update = space.update(alloc, number)?;
    if let Some(Update::Insert(facts)) = &update {
        for fact in facts.iter() {
            hints.add(space, fact, space.state.last(), notes)?;
        }
    }
    Ok(())
}

fn copied(alloc: Global, numbers: &[u32]) -> Result<Vec<u32>, AllocError> {
    let mut copy = Vec::new(alloc);
    copy.extend_from_slice(numbers)?;
    Ok(copy)
}

// A hint for each proposed mapping that has violations.
fn add_proposed(alloc: Global, space: &Space, notes: &mut Vec<Note>) -> Result<(), Memory> {
    for place in 0..space.rules.len() {
        let mapping = u16::try_from(place).unwrap_or(u16::MAX);
        if is_proposed(space, mapping) {
            let count = space.count_violations(alloc, mapping)?;
            if 0 < count {
                let words = proposed_words(alloc, space.mapping_name(mapping), count)?;
                notes.push(Note::of(alloc, words))?;
            }
        }
    }
    Ok(())
}

fn is_proposed(space: &Space, mapping: u16) -> bool {
    !space.state.is_gone(mapping) && !space.state.in_force().contains(&mapping)
}

fn proposed_words(alloc: Global, name: &str, count: usize) -> Result<String, AllocError> {
    let mut words = Text::new(alloc);
    write!(words, "mapping {name} is proposed and has ");
    add_count(&mut words, count, "violation");
    words.done()
}

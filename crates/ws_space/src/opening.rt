//! Opening a workspace from the texts of its file.

use crate::changed::Changed;
use crate::heads::state_of;
use crate::lines::apart;
use crate::spaces::Space;
use base_types::Memory;
use std::alloc::{AllocError, AllocFailed, Global};
use ws_grammar::{read_head, read_line, read_stamp};
use ws_state::State;
use ws_written::{Head, Line, Record, Rule, SaidLine, Stamp};

/// Why texts cannot be opened: want of memory, or the text at this place is neither head nor record.
#[derive(Clone, Copy, Debug, PartialEq, Eq)]
pub enum Opening {
    Memory,
    Unread(usize),
}

impl From<Memory> for Opening {
    fn from(_memory: Memory) -> Opening {
        Opening::Memory
    }
}

impl From<AllocError> for Opening {
    fn from(_error: AllocError) -> Opening {
        Opening::Memory
    }
}

impl<T: Drop> From<AllocFailed<T>> for Opening {
    fn from(_failed: AllocFailed<T>) -> Opening {
        Opening::Memory
    }
}

impl Space {
    /// Opens the workspace of a file: the first text is its head, the others are its records. Without `keeps_lines`, the lines of
    /// the records are not kept; the log cannot be printed then.
    pub fn open(alloc: Global, texts: &[Vec<u8>], keeps_lines: bool) -> Result<Space, Opening> {
        let Some((head, records)) = texts.split_first() else {
            return Err(Opening::Unread(0));
        };
        let mut space = Space::of_head(alloc, head.as_slice())?;
        space.keeps_lines = keeps_lines;
        match space.replay_all(alloc, records) {
            Ok(()) => Ok(space),
            Err(fault) => {
                drop(space);
                Err(fault)
            }
        }
    }

    fn replay_all(&mut self, alloc: Global, records: &[Vec<u8>]) -> Result<(), Opening> {
        for (place, text) in records.iter().enumerate() {
            if !self.replayed(alloc, text.as_slice())? {
                return Err(Opening::Unread(place.saturating_add(1)));
            }
        }
        Ok(())
    }

    /// Takes one more record. If the text is no record, the place in the error is 0.
    pub fn replay(&mut self, alloc: Global, text: &[u8]) -> Result<(), Opening> {
        if self.replayed(alloc, text)? {
            return Ok(());
        }
        Err(Opening::Unread(0))
    }

    fn of_head(alloc: Global, text: &[u8]) -> Result<Space, Opening> {
        match read_head(alloc, text)? {
            Some(head) => Space::over(alloc, head),
            None => Err(Opening::Unread(0)),
        }
    }

    fn over(alloc: Global, head: Head) -> Result<Space, Opening> {
        match begun(alloc, &head) {
            Ok((rules, state)) => Ok(Space::begun_by(alloc, head, rules, state)),
            Err(fault) => {
                drop(head);
                Err(fault)
            }
        }
    }

    fn begun_by(alloc: Global, head: Head, rules: Vec<Rule>, state: State) -> Space {
        Space {
            relations: head.relations,
            rules,
            state,
            records: Vec::new(alloc),
            created: head.created,
            first: head.at,
            folded: head.last,
            stamp: Stamp {
                time: String::new(alloc),
                curator: String::new(alloc),
            },
            changed: Changed::new(alloc),
            keeps_lines: true,
        }
    }

    // Does what the text says if it is a record; returns whether it is one.
    fn replayed(&mut self, alloc: Global, text: &[u8]) -> Result<bool, Memory> {
        let Some((stamp, text)) = read_stamp(alloc, text)? else {
            return Ok(false);
        };
        self.say_as(alloc, stamp.time.as_str(), stamp.curator.as_str())?;
        let Some(lines) = self.replay_lines(alloc, text)? else {
            return Ok(false);
        };
        self.recorded(alloc, Record { stamp, lines })?;
        Ok(true)
    }

    // Does what the lines say, one after the other, and returns the lines that are kept; None if a line cannot be read or taken.
    fn replay_lines(&mut self, alloc: Global, text: &str) -> Result<Option<Vec<SaidLine>>, Memory> {
        let mut lines = Vec::new(alloc);
        for line in text.split('\n') {
            if !self.replay_line(alloc, line, &mut lines)? {
                return Ok(None);
            }
        }
        Ok(Some(lines))
    }

    fn replay_line(
        &mut self,
        alloc: Global,
        line: &str,
        lines: &mut Vec<SaidLine>,
    ) -> Result<bool, Memory> {
        match read_line(alloc, self.relations.as_slice(), line)? {
            Some(said) => self.replay_said(alloc, said, lines),
            None => Ok(false),
        }
    }

    fn replay_said(
        &mut self,
        alloc: Global,
        said: SaidLine,
        lines: &mut Vec<SaidLine>,
    ) -> Result<bool, Memory> {
        match self.takes(alloc, &said.line) {
            Ok(true) if self.keeps_lines => {
                lines.push(said)?;
                Ok(true)
            }
            taken => {
                drop(said);
                taken
            }
        }
    }

    // Does what a line says. Returns whether it can be taken.
    fn takes(&mut self, alloc: Global, line: &Line) -> Result<bool, Memory> {
        let told = self.try_take(alloc, line)?;
        let is_taken = told.is_some();
        drop(told);
        Ok(is_taken)
    }
}

// The mappings of the head, by number, and its state.
fn begun(alloc: Global, head: &Head) -> Result<(Vec<Rule>, State), Opening> {
    let rules = rules_of(alloc, head)?;
    match state_of(alloc, rules.as_slice(), head) {
        Ok(Some(state)) => Ok((rules, state)),
        Ok(None) => {
            drop(rules);
            Err(Opening::Unread(0))
        }
        Err(_) => {
            drop(rules);
            Err(Opening::Memory)
        }
    }
}

// The mappings of the head, by number: first those in force, then the proposed ones.
fn rules_of(alloc: Global, head: &Head) -> Result<Vec<Rule>, Memory> {
    let mut rules = Vec::new(alloc);
    add_rules(alloc, &mut rules, head.in_force.as_slice())?;
    add_rules(alloc, &mut rules, head.proposed.as_slice())?;
    Ok(rules)
}

fn add_rules(alloc: Global, rules: &mut Vec<Rule>, said: &[Rule]) -> Result<(), Memory> {
    for rule in said {
        rules.push(apart(alloc, rule)?)?;
    }
    Ok(())
}

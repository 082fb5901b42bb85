//! The workspace in memory, and its records.

use crate::changed::Changed;
use crate::texts::number;
use base_types::Memory;
use std::alloc::Global;
use ws_state::State;
use ws_written::{Record, Relation, Rule, Stamp};

/// A record of the log: its number, what it says, and the numbers of the relations whose tuples it changed, in rising order.
#[derive(Drop)]
pub struct Recorded {
    pub at: u32,
    pub record: Record,
    pub tables: Vec<u32>,
}

/// A workspace: its state, its relations and mappings by their numbers there, and the records after the head.
///
/// In a mapping, each `_` is a variable of its own, with the name that it is printed with. `created` is the stamp of the head,
/// `first` the number of records before it, and `folded` the last update's number in it. If the space was opened without
/// `keeps_lines`, the records that were read have no lines.
pub struct Space {
    pub relations: Vec<Relation>,
    pub rules: Vec<Rule>,
    pub state: State,
    pub records: Vec<Recorded>,
    pub created: Stamp,
    pub first: u32,
    pub folded: u32,
    // Who says the lines that are taken, and when.
    pub(crate) stamp: Stamp,
    // What the lines that are not recorded yet did.
    pub(crate) changed: Changed,
    // Whether to keep the lines of records that are read.
    pub(crate) keeps_lines: bool,
}

impl Drop for Space {
    fn drop(self) {
        let Space {
            relations: _,
            rules: _,
            state: _,
            records: _,
            created: _,
            first: _,
            folded: _,
            stamp: _,
            changed: _,
            keeps_lines: _,
        } = self;
    }
}

impl Space {
    /// An empty workspace.
    pub fn fresh(alloc: Global, created: Stamp) -> Result<Space, Memory> {
        Ok(Space {
            relations: Vec::new(alloc),
            rules: Vec::new(alloc),
            state: State::new(alloc),
            records: Vec::new(alloc),
            created,
            first: 0,
            folded: 0,
            stamp: Stamp {
                time: String::new(alloc),
                curator: String::new(alloc),
            },
            changed: Changed::new(alloc),
            keeps_lines: true,
        })
    }

    /// The number of the last record.
    pub fn at(&self) -> u32 {
        self.first.saturating_add(number(self.records.len()))
    }

    /// Sets the time and the curator of the lines that are taken from now on.
    pub fn say_as(&mut self, alloc: Global, time: &str, curator: &str) -> Result<(), Memory> {
        self.stamp = Stamp {
            time: String::from_str(alloc, time)?,
            curator: String::from_str(alloc, curator)?,
        };
        Ok(())
    }

    /// Whether each line taken so far is recorded.
    pub fn is_recorded(&self) -> bool {
        self.changed.lines == 0
    }

    /// Keeps a record of the lines taken since the last record.
    pub fn recorded(&mut self, alloc: Global, record: Record) -> Result<(), Memory> {
        let tables = self.changed.tables(alloc)?;
        self.changed = Changed::new(alloc);
        let at = self.at().saturating_add(1);
        self.records.push(Recorded { at, record, tables })?;
        Ok(())
    }
}

//! The rows as updates: each row that is not there yet gets an update that inserts it.

use crate::faults::refused;
use crate::known::{Row, row_of};
use std::alloc::{AllocError, Global};
use ws_cells::LoadedRow;
use ws_fault::Refusal;
use ws_print::{Text, add_unknown};
use ws_report::spent_fault;
use ws_run::Reason;
use ws_space::Space;
use ws_state::Told;
use ws_written::{Line, NewFact, NumberedUpdate, Relation, Unknown, Update};

/// What became of the rows: the numbers of the updates that are done and of the updates that wait, the number of rows that were
/// there already, the lines of the record before those of updates, and the numbers of all updates.
#[derive(Drop)]
pub(crate) struct Inserted {
    pub done: Vec<u32>,
    pub waiting: Vec<u32>,
    pub there: usize,
    pub lines: Vec<Line>,
    pub updates: Vec<u32>,
}

impl Inserted {
    /// The beginning: no row is inserted yet.
    pub fn new(alloc: Global) -> Inserted {
        Inserted {
            done: Vec::new(alloc),
            waiting: Vec::new(alloc),
            there: 0,
            lines: Vec::new(alloc),
            updates: Vec::new(alloc),
        }
    }

    /// Whether nothing is to be recorded.
    pub fn is_nothing(&self) -> bool {
        self.lines.is_empty() && self.updates.is_empty()
    }

    /// Declares a relation.
    pub fn declare(
        &mut self,
        alloc: Global,
        space: &mut Space,
        relation: Relation,
    ) -> Result<(), Refusal> {
        let line = Line::Relation(relation);
        match space.take(alloc, &line) {
            Ok(_) => Ok(self.lines.push(line)?),
            Err(_) => {
                drop(line);
                Err(Refusal::Memory)
            }
        }
    }

    /// Inserts each row that is not there, each with a budget of `steps`. It is refused if a row names an unknown that an earlier
    /// row filled, or if the steps for a row do not suffice.
    pub fn add_all(
        &mut self,
        alloc: Global,
        space: &mut Space,
        rows: Vec<LoadedRow>,
        steps: u32,
    ) -> Result<(), Refusal> {
        for row in rows {
            self.add(alloc, space, row, steps)?;
        }
        Ok(())
    }

    fn add(
        &mut self,
        alloc: Global,
        space: &mut Space,
        row: LoadedRow,
        steps: u32,
    ) -> Result<(), Refusal> {
        if is_there(alloc, space, &row)? {
            self.there = self.there.saturating_add(1);
            return Ok(());
        }
        let number = next_number(alloc, space)?;
        let line = insertion(alloc, number, steps, row.fact)?;
        let taken = self.take(alloc, space, number, steps, &line);
        drop(line);
        taken
    }

    // Takes the line of an update, and counts the update as done or as waiting.
    fn take(
        &mut self,
        alloc: Global,
        space: &mut Space,
        number: u32,
        steps: u32,
        line: &Line,
    ) -> Result<(), Refusal> {
        self.updates.push(number)?;
        let told = space.take(alloc, line)?;
        self.count(alloc, space, number, steps, &told)
    }

    fn count(
        &mut self,
        alloc: Global,
        space: &Space,
        number: u32,
        steps: u32,
        told: &Told,
    ) -> Result<(), Refusal> {
        match &told.reason {
            Some(Reason::TooLong(made)) => Err(spent_fault(alloc, space, steps, made)?),
            Some(_) => Ok(self.waiting.push(number)?),
            None => Ok(self.done.push(number)?),
        }
    }
}

// The line that inserts a tuple.
fn insertion(alloc: Global, number: u32, steps: u32, fact: NewFact) -> Result<Line, AllocError> {
    let mut facts = Vec::new(alloc);
    facts.push(fact)?;
    Ok(Line::Update(NumberedUpdate {
        number,
        steps,
        update: Update::Insert(facts),
    }))
}

// Whether the row is there already. It is refused if it names an unknown that is not there any more.
fn is_there(alloc: Global, space: &Space, row: &LoadedRow) -> Result<bool, Refusal> {
    match row_of(alloc, space, &row.fact)? {
        Row::Lost(unknown) => Err(lost(alloc, row, unknown)?),
        Row::Within(tuple) => Ok(space.has(&tuple)),
        Row::New => Ok(false),
    }
}

fn next_number(alloc: Global, space: &Space) -> Result<u32, Refusal> {
    match space.state.last().checked_add(1) {
        Some(number) => Ok(number),
        None => {
            let words = String::from_str(alloc, "no number is left for an update")?;
            Err(refused(alloc, words))
        }
    }
}

// The refusal: the row names an unknown that is not there any more.
fn lost(alloc: Global, row: &LoadedRow, unknown: Unknown) -> Result<Refusal, AllocError> {
    let line = row.line;
    let number = row.row;
    let mut words = Text::new(alloc);
    write!(words, "line {line}: row {number}: unknown ");
    add_unknown(&mut words, unknown);
    words.push_str(" was filled by a row before");
    let words = words.done()?;
    Ok(refused(alloc, words))
}

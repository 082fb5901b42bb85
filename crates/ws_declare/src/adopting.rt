//! `adopt`.

use crate::dropping::is_in_force;
use crate::forcing::force;
use crate::repairs::{is_violated, open_repairs, waiting_repairs};
use base_types::Tuple;
use def_memory::Memory;
use std::alloc::{AllocError, Global};
use std::collections::BTreeSet;
use ws_fault::{Refusal, Status};
use ws_print::Lines;
use ws_question::count_text;
use ws_report::{Counted, Done, Report, Taken, add_line, ranges_text, spent, take_update};
use ws_space::Space;
use ws_state::Mark;
use ws_written::{Line, Update};

/// The greatest number of rounds in which violations are searched for.
const ROUNDS: u32 = 10;

/// The repairs of a mapping so far: their lines, the updates that are done, the updates that ask, and each repair that waits.
#[derive(Drop)]
struct Repairs {
    mapping: u16,
    steps: u32,
    mark: Mark,
    lines: Vec<Line>,
    fixed: Vec<u32>,
    asks: Vec<u32>,
    waiting: BTreeSet<Tuple>,
}

/// The outcome of the repairs: the report, and the line that put the mapping in force, if there is one.
#[derive(Drop)]
struct Repaired {
    report: Report,
    forced: Option<Line>,
}

/// Repairs the violations of a mapping, each repair with its own budget, and puts the mapping in force if none is left. It is
/// refused if the steps do not suffice, or if the repairs cause new violations in each round.
pub fn adopt(alloc: Global, space: &mut Space, name: &str, steps: u32) -> Result<Done, Refusal> {
    if is_in_force(space, name) {
        return Ok(Done::nothing(alloc, "in force already", line_of(alloc, name)?));
    }
    let mapping = space.mapping(name).unwrap_or(u16::MAX);
    let waiting = waiting_repairs(alloc, space, mapping)?;
    let repairs = Repairs {
        mapping,
        steps,
        mark: space.state.mark(),
        lines: Vec::new(alloc),
        fixed: Vec::new(alloc),
        asks: Vec::new(alloc),
        waiting,
    };
    repairs.make_all(alloc, space, name)
}

fn line_of(alloc: Global, name: &str) -> Result<String, AllocError> {
    format!(in alloc; "adopt {name}")
}

fn refuse_rounds(alloc: Global, name: &str) -> Result<Repaired, Refusal> {
    let words = format!(in alloc;
        "spent: the repairs of {name} violate it anew, ten times over; nothing was changed"
    )?;
    let fault = spent(alloc, words.as_str(), "does it go round for ever?")?;
    Err(Refusal::Fault(fault))
}

impl Repairs {
    // Makes the repairs, and returns their outcome.
    fn make_all(self, alloc: Global, space: &mut Space, name: &str) -> Result<Done, Refusal> {
        let mut repairs = self;
        match repairs.repaired(alloc, space, name) {
            Ok(Repaired { report, forced }) => Done::of(report, repairs.into_lines(forced)),
            Err(refusal) => {
                drop(repairs);
                Err(refusal)
            }
        }
    }

    // The lines of the repairs, and the line that put the mapping in force, if there is one.
    fn into_lines(self, forced: Option<Line>) -> Result<Vec<Line>, AllocError> {
        let Repairs { lines, .. } = self;
        add_line(lines, forced)
    }

    // Makes rounds of repairs until nothing is left to repair.
    fn repaired(
        &mut self,
        alloc: Global,
        space: &mut Space,
        name: &str,
    ) -> Result<Repaired, Refusal> {
        for _ in 0..ROUNDS {
            if !self.round(alloc, space, name)? {
                return self.end(alloc, space, name);
            }
        }
        refuse_rounds(alloc, name)
    }

    // Repairs the violations that no repair waits for. Returns whether there were any.
    fn round(&mut self, alloc: Global, space: &mut Space, name: &str) -> Result<bool, Refusal> {
        let open = open_repairs(alloc, space, self.mapping, &self.waiting)?;
        for repair in open.iter() {
            if is_violated(alloc, space, repair)? {
                self.make(alloc, space, name, repair)?;
            }
        }
        Ok(!open.is_empty())
    }

    // Makes a repair.
    fn make(
        &mut self,
        alloc: Global,
        space: &mut Space,
        name: &str,
        repair: &Tuple,
    ) -> Result<(), Refusal> {
        let update = update_of(alloc, space, name, repair)?;
        let taken = take_update(alloc, space, self.steps, update)?;
        let asks = taken.reason.is_some();
        self.keep(taken)?;
        if asks {
            self.waiting.insert(repair.share()?)?;
        }
        Ok(())
    }

    // Keeps the line and the number of a repair.
    fn keep(&mut self, taken: Taken) -> Result<(), AllocError> {
        let Taken {
            number,
            line,
            reason,
        } = taken;
        self.lines.push(line)?;
        match reason {
            None => self.fixed.push(number)?,
            Some(_) => self.asks.push(number)?,
        }
        Ok(())
    }

    // Puts the mapping in force if it has no violation, and reports all repairs.
    fn end(&self, alloc: Global, space: &mut Space, name: &str) -> Result<Repaired, Refusal> {
        let left = space.count_violations(alloc, self.mapping)?;
        if left == 0 {
            return self.adopted(alloc, space, name);
        }
        let report = if self.lines.is_empty() {
            all_wait(alloc, name, left)?
        } else {
            self.left(alloc, space, name, left)?
        };
        Ok(Repaired {
            report,
            forced: None,
        })
    }

    // The lines for the number of repaired violations, and the number of repairs that ask.
    fn told(&self, alloc: Global) -> Result<Lines, Memory> {
        let mut told = Lines::new(alloc);
        add_numbers(
            alloc,
            &mut told,
            self.fixed.as_slice(),
            "violation",
            " repaired by ",
        )?;
        add_numbers(alloc, &mut told, self.asks.as_slice(), "question", ": ")?;
        Ok(told)
    }

    fn adopted(&self, alloc: Global, space: &mut Space, name: &str) -> Result<Repaired, Refusal> {
        let Taken { number, line, .. } = force(alloc, space, name)?;
        match self.adopted_report(alloc, space, name, number) {
            Ok(report) => Ok(Repaired {
                report,
                forced: Some(line),
            }),
            Err(memory) => {
                drop(line);
                Err(Refusal::from(memory))
            }
        }
    }

    fn adopted_report(
        &self,
        alloc: Global,
        space: &Space,
        name: &str,
        number: u32,
    ) -> Result<Report, Memory> {
        let mut also = self.told(alloc)?;
        also.made(format!(in alloc; "{name} is in force from {number} on"));
        let also = also.done()?;
        let counted = counted(alloc, self.fixed.as_slice(), &[])?;
        let line = line_of(alloc, name)?;
        let effect = space.state.effect_since(alloc, self.mark)?;
        let mut report = Report::with_effect(alloc, Status::Done, "done", line, effect);
        report.number = Some(number);
        report.also = also;
        report.counted = Some(counted);
        Ok(report)
    }

    // The report if some violations are left.
    fn left(
        &self,
        alloc: Global,
        space: &Space,
        name: &str,
        left: usize,
    ) -> Result<Report, Memory> {
        let also = self.left_words(alloc, name, left)?;
        let next = next_of(alloc, name)?;
        let counted = counted(alloc, self.fixed.as_slice(), self.asks.as_slice())?;
        let line = line_of(alloc, name)?;
        let effect = space.state.effect_since(alloc, self.mark)?;
        let mut report = Report::with_effect(alloc, Status::Waits, "waits", line, effect);
        report.also = also;
        report.next = next;
        report.counted = Some(counted);
        Ok(report)
    }

    // The lines of the repairs, and the number of violations that are left.
    fn left_words(&self, alloc: Global, name: &str, left: usize) -> Result<Vec<String>, Memory> {
        let mut also = self.told(alloc)?;
        let left = count_text(alloc, left, "violation")?;
        also.made(format!(in alloc; "{name} is not in force yet: {left} left"));
        Ok(also.done()?)
    }
}

// The commands that may follow if violations are left.
fn next_of(alloc: Global, name: &str) -> Result<Vec<String>, AllocError> {
    let mut next = Lines::new(alloc);
    next.push_str("questions");
    next.made(line_of(alloc, name));
    next.done()
}

// Adds a line with the count of the numbers and the numbers, if there are any.
fn add_numbers(
    alloc: Global,
    told: &mut Lines,
    numbers: &[u32],
    noun: &str,
    between: &str,
) -> Result<(), Memory> {
    if numbers.is_empty() {
        return Ok(());
    }
    let count = count_text(alloc, numbers.len(), noun)?;
    let ranges = ranges_text(alloc, numbers)?;
    told.made(format!(in alloc; "{count}{between}{ranges}"));
    Ok(())
}

// The update that makes the repair.
fn update_of(alloc: Global, space: &Space, name: &str, repair: &Tuple) -> Result<Update, Memory> {
    let mut values = Vec::new(alloc);
    for value in repair.values.as_slice() {
        values.push(space.value(alloc, value)?)?;
    }
    let name = String::from_str(alloc, name)?;
    Ok(Update::Fix(name, values))
}

// The updates that are done and the updates that wait, as a report counts them.
fn counted(alloc: Global, done: &[u32], wait: &[u32]) -> Result<Counted, AllocError> {
    let mut numbers = Vec::new(alloc);
    numbers.extend_from_slice(done)?;
    let mut waiting = Vec::new(alloc);
    waiting.extend_from_slice(wait)?;
    Ok(Counted { numbers, waiting })
}

// The report if each violation waits already.
fn all_wait(alloc: Global, name: &str, left: usize) -> Result<Report, Memory> {
    let left = count_text(alloc, left, "violation")?;
    let mut also = Vec::new(alloc);
    also.push(format!(in alloc; "{left}, and each waits for its question")?)?;
    let mut next = Vec::new(alloc);
    next.push(String::from_str(alloc, "questions")?)?;
    let line = line_of(alloc, name)?;
    let mut report = Report::of(alloc, Status::Waits, "waits", line);
    report.also = also;
    report.next = next;
    Ok(report)
}

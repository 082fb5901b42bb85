//! `mapping`.

use crate::forcing::force;
use crate::lints::lints_of;
use crate::mappings::{check_mapping, is_declared};
use def_memory::Memory;
use std::alloc::Global;
use ws_fault::{Refusal, Status};
use ws_print::{Lines, Text, add_fact, add_new_facts};
use ws_question::count_text;
use ws_report::{Done, Note, Report, Taken, lines_of, told_line};
use ws_space::{Space, Violation, apart};
use ws_written::{Line, Rule};

/// The greatest number of violations that are printed.
const TOLD: usize = 3;

/// A declared mapping: its report, and the line that put it in force, if there is one.
#[derive(Drop)]
struct Declared {
    report: Report,
    forced: Option<Line>,
}

/// Declares a mapping. If it has no violation it is put in force, else it is proposed. It is refused if its name is taken, if it
/// closes a plain cycle, or at a limit.
pub fn declare_mapping(alloc: Global, space: &mut Space, rule: Rule) -> Result<Done, Refusal> {
    match apart(alloc, &rule) {
        Ok(meant) => declare(alloc, space, Line::Mapping(rule), &meant),
        Err(_) => {
            drop(rule);
            Err(Refusal::Memory)
        }
    }
}

// Declares the mapping of a line. `meant` is the mapping without `_`.
fn declare(alloc: Global, space: &mut Space, line: Line, meant: &Rule) -> Result<Done, Refusal> {
    if is_declared(space, meant) {
        return there_already(alloc, space, &line);
    }
    match take_mapping(alloc, space, &line, meant) {
        Ok(Declared { report, forced }) => Done::of(report, lines_of(alloc, line, forced)),
        Err(refusal) => {
            drop(line);
            Err(refusal)
        }
    }
}

fn there_already(alloc: Global, space: &Space, line: &Line) -> Result<Done, Refusal> {
    let text = told_line(alloc, space, line)?;
    Ok(Done::nothing(alloc, "there already", text))
}

fn take_mapping(
    alloc: Global,
    space: &mut Space,
    line: &Line,
    meant: &Rule,
) -> Result<Declared, Refusal> {
    check_mapping(alloc, space, meant)?;
    space.take(alloc, line)?;
    let text = told_line(alloc, space, line)?;
    let notes = lints_of(alloc, space, meant)?;
    let name = meant.name.as_str();
    let mapping = space.mapping(name).unwrap_or(u16::MAX);
    let violations = space.violations(alloc, mapping)?;
    if violations.is_empty() {
        return enforced(alloc, space, name, text, notes);
    }
    proposed(alloc, space, mapping, violations.as_slice(), text, notes)
}

// Puts the mapping in force, and reports it.
fn enforced(
    alloc: Global,
    space: &mut Space,
    name: &str,
    text: String,
    notes: Vec<Note>,
) -> Result<Declared, Refusal> {
    let Taken { number, line, .. } = force(alloc, space, name)?;
    let mut report = Report::of(alloc, Status::Done, "in force", text);
    report.number = Some(number);
    report.notes = notes;
    Ok(Declared {
        report,
        forced: Some(line),
    })
}

// Reports the mapping as proposed, because it has violations.
fn proposed(
    alloc: Global,
    space: &Space,
    mapping: u16,
    violations: &[Violation],
    text: String,
    notes: Vec<Note>,
) -> Result<Declared, Refusal> {
    let also = violations_told(alloc, space, mapping, violations)?;
    let next = next_of(alloc, space.mapping_name(mapping))?;
    let mut report = Report::of(alloc, Status::Done, "proposed", text);
    report.also = also;
    report.notes = notes;
    report.next = next;
    Ok(Declared {
        report,
        forced: None,
    })
}

// The lines for the number of violations, and for the first of them.
fn violations_told(
    alloc: Global,
    space: &Space,
    mapping: u16,
    violations: &[Violation],
) -> Result<Vec<String>, Memory> {
    let mut told = Lines::new(alloc);
    let count = count_text(alloc, violations.len(), "violation")?;
    told.made(format!(in alloc; "it has {count}, so it is not in force"));
    for violation in violations.iter().take(TOLD) {
        told.made(violation_line(alloc, space, mapping, violation));
    }
    Ok(told.done()?)
}

fn next_of(alloc: Global, name: &str) -> Result<Vec<String>, Memory> {
    let mut next = Vec::new(alloc);
    next.push(format!(in alloc; "violations {name}")?)?;
    next.push(format!(in alloc; "try adopt {name}")?)?;
    next.push(format!(in alloc; "adopt {name}")?)?;
    Ok(next)
}

// `IMAGE lacks RIGHT`.
fn violation_line(
    alloc: Global,
    space: &Space,
    mapping: u16,
    violation: &Violation,
) -> Result<String, Memory> {
    let relations = space.relations.as_slice();
    let mut line = Text::new(alloc);
    for (place, tuple) in violation.image.as_slice().iter().enumerate() {
        if 0 < place {
            line.push_str(", ");
        }
        add_fact(&mut line, relations, &space.shown(alloc, tuple)?);
    }
    line.push_str(" lacks ");
    let lacking = space.lacking(alloc, mapping, violation)?;
    add_new_facts(&mut line, relations, lacking.as_slice());
    Ok(line.done()?)
}

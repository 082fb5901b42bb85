//! Lines of the log, and records.

use crate::facts::{add_fact, add_facts};
use crate::numbers::add_ranges;
use crate::rules::{add_form, add_rule};
use crate::texts::Text;
use crate::updates::add_numbered;
use std::fmt::Write;
use ws_written::{Answer, Choice, Line, Record, Relation, Stamp};

/// Adds `expand`, `unify FACT` or `delete FACT, ..`.
pub fn add_choice(out: &mut Text, relations: &[Relation], choice: &Choice) {
    match choice {
        Choice::Expand => out.push_str("expand"),
        Choice::Unify(fact) => {
            out.push_str("unify ");
            add_fact(out, relations, fact)
        }
        Choice::Delete(facts) => {
            out.push_str("delete ");
            add_facts(out, relations, facts.as_slice())
        }
    }
}

/// Adds `answer N CHOICE to NAME FACT, ..`.
pub fn add_answer(out: &mut Text, relations: &[Relation], number: u32, answer: &Answer) {
    write!(out, "answer {number} ");
    add_choice(out, relations, &answer.choice);
    let mapping = answer.question.mapping.as_str();
    write!(out, " to {mapping} ");
    add_facts(out, relations, answer.question.facts.as_slice())
}

/// Adds a line of the log, without its comment.
pub fn add_line(out: &mut Text, relations: &[Relation], line: &Line) {
    match line {
        Line::Update(numbered) => add_numbered(out, relations, numbered),
        Line::Answer(number, answer) => add_answer(out, relations, *number, answer),
        Line::Go(number) => write!(out, "answer {number} go"),
        Line::Undo(numbers) => add_said(out, "undo ", numbers.as_slice(), ""),
        Line::UndoAnswers(numbers) => add_said(out, "undo ", numbers.as_slice(), " --answers"),
        Line::Redo(numbers) => add_said(out, "redo ", numbers.as_slice(), ""),
        Line::Relation(relation) => {
            out.push_str("relation ");
            add_form(out, relation)
        }
        Line::Mapping(rule) => {
            out.push_str("mapping ");
            add_rule(out, relations, rule)
        }
    }
}

fn add_said(out: &mut Text, verb: &str, numbers: &[u32], end: &str) {
    out.push_str(verb);
    add_ranges(out, numbers);
    out.push_str(end)
}

/// Adds `TIME CURATOR`.
pub fn add_stamp(out: &mut Text, stamp: &Stamp) {
    out.push_str(stamp.time.as_str());
    out.push(' ');
    out.push_str(stamp.curator.as_str())
}

/// Adds the text of a record; `relations` must be the relations that stand after it.
pub fn add_record(out: &mut Text, relations: &[Relation], record: &Record) {
    add_stamp(out, &record.stamp);
    for said in record.lines.iter() {
        out.push('\n');
        add_line(out, relations, &said.line);
        if !said.comment.is_empty() {
            out.push_str("  # ");
            out.push_str(said.comment.as_str());
        }
    }
}

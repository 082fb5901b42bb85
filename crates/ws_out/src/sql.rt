//! Relations as SQL statements: a table for each relation, and one table that names the unknowns.

use crate::texts::facts_of;
use std::alloc::{AllocError, Global};
use std::fmt::Write;
use ws_fault::Refusal;
use ws_print::{Lines, Text, add_unknown};
use ws_space::Space;
use ws_written::{Column, Fact, Relation, Unknown, Value};

const UNKNOWNS: &str =
    "CREATE TABLE yt_unknown (yt_relation TEXT, yt_row BIGINT, yt_column TEXT, yt_name TEXT);";

// The statements: some make the tables, the others name unknowns.
#[derive(Drop)]
struct Script {
    alloc: Global,
    lines: Lines,
    unknowns: Lines,
}

/// The statements for these relations, by their numbers.
pub(crate) fn sql_lines(
    alloc: Global,
    space: &Space,
    relations: &[u32],
) -> Result<Vec<String>, Refusal> {
    let mut script = Script {
        alloc,
        lines: Lines::new(alloc),
        unknowns: Lines::new(alloc),
    };
    script.lines.push_str("BEGIN;");
    for number in relations {
        if let Some(relation) = space.relations.get(*number as usize) {
            let facts = facts_of(alloc, space, *number)?;
            script.add_table(relation, facts.as_slice())?;
        }
    }
    script.lines.push_str(UNKNOWNS);
    Ok(script.ended()?)
}

impl Script {
    // All statements, in order.
    fn ended(self) -> Result<Vec<String>, AllocError> {
        let Script {
            alloc: _,
            mut lines,
            unknowns,
        } = self;
        for line in unknowns.done()? {
            lines.push(line);
        }
        lines.push_str("COMMIT;");
        lines.done()
    }

    fn add_table(&mut self, relation: &Relation, facts: &[Fact]) -> Result<(), AllocError> {
        let columns = columns_of(self.alloc, relation, facts)?;
        self.lines
            .made(create(self.alloc, relation, columns.as_slice()));
        for (place, fact) in facts.iter().enumerate() {
            let row = place.saturating_add(1);
            let line = insert(self.alloc, relation, columns.as_slice(), row, fact);
            self.lines.made(line);
            self.add_unknowns(relation, row, fact);
        }
        Ok(())
    }

    fn add_unknowns(&mut self, relation: &Relation, row: usize, fact: &Fact) {
        for (place, column) in relation.columns.iter().enumerate() {
            if let Some(Value::Unknown(unknown)) = fact.values.get(place) {
                let line = named(self.alloc, relation, row, column, *unknown);
                self.unknowns.made(line);
            }
        }
    }
}

// A column, and whether its cells are numbers.
#[derive(Drop)]
struct Kind<'a> {
    column: &'a Column,
    is_number: bool,
}

fn columns_of<'a>(
    alloc: Global,
    relation: &'a Relation,
    facts: &[Fact],
) -> Result<Vec<Kind<'a>>, AllocError> {
    let mut columns = Vec::new(alloc);
    for (place, column) in relation.columns.iter().enumerate() {
        columns.push(Kind {
            column,
            is_number: has_numbers(facts, place) && !has_texts(facts, place),
        })?;
    }
    Ok(columns)
}

fn has_numbers(facts: &[Fact], place: usize) -> bool {
    for fact in facts {
        if let Some(Value::Number(_)) = fact.values.get(place) {
            return true;
        }
    }
    false
}

fn has_texts(facts: &[Fact], place: usize) -> bool {
    for fact in facts {
        if let Some(Value::Text(_)) = fact.values.get(place) {
            return true;
        }
    }
    false
}

fn create(alloc: Global, relation: &Relation, columns: &[Kind<'_>]) -> Result<String, AllocError> {
    let name = relation.name.as_str();
    let mut line = Text::new(alloc);
    write!(line, "CREATE TABLE \"{name}\" (yt_row BIGINT PRIMARY KEY");
    for kind in columns {
        let column = kind.column.name.as_str();
        let word = if kind.is_number { "BIGINT" } else { "TEXT" };
        write!(line, ", \"{column}\" {word}");
    }
    line.push_str(");");
    line.done()
}

fn insert(
    alloc: Global,
    relation: &Relation,
    columns: &[Kind<'_>],
    row: usize,
    fact: &Fact,
) -> Result<String, AllocError> {
    let name = relation.name.as_str();
    let mut line = Text::new(alloc);
    write!(line, "INSERT INTO \"{name}\" VALUES ({row}");
    for (place, kind) in columns.iter().enumerate() {
        if let Some(value) = fact.values.get(place) {
            line.push_str(", ");
            add_cell(&mut line, kind.is_number, value);
        }
    }
    line.push_str(");");
    line.done()
}

fn add_cell(line: &mut Text, is_number: bool, value: &Value) {
    match value {
        Value::Text(text) => add_text(line, text.as_str()),
        Value::Number(number) => {
            if is_number {
                return write!(line, "{number}");
            }
            write!(line, "'{number}'")
        }
        _ => line.push_str("NULL"),
    }
}

// Adds a text between quotes, with its own quotes doubled.
fn add_text(line: &mut Text, text: &str) {
    line.push('\'');
    for (place, part) in text.split('\'').enumerate() {
        line.push_str(if 0 < place { "''" } else { "" });
        line.push_str(part);
    }
    line.push('\'')
}

// The statement that names the unknown of a cell.
fn named(
    alloc: Global,
    relation: &Relation,
    row: usize,
    column: &Column,
    unknown: Unknown,
) -> Result<String, AllocError> {
    let name = relation.name.as_str();
    let column = column.name.as_str();
    let mut line = Text::new(alloc);
    write!(
        line,
        "INSERT INTO yt_unknown VALUES ('{name}', {row}, '{column}', '"
    );
    add_unknown(&mut line, unknown);
    line.push_str("');");
    line.done()
}

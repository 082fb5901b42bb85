//! A relation as comma-separated values.

use crate::texts::facts_of;
use std::alloc::{AllocError, Global};
use ws_cells::add_csv_cell;
use ws_fault::Refusal;
use ws_print::{Lines, Text, add_value};
use ws_space::Space;
use ws_written::{Fact, Relation, Value};

/// The lines of a relation: one for its columns, and one for each row.
pub(crate) fn csv_lines(
    alloc: Global,
    space: &Space,
    relation: u32,
) -> Result<Vec<String>, Refusal> {
    let mut lines = Lines::new(alloc);
    if let Some(found) = space.relations.get(relation as usize) {
        lines.made(head_line(alloc, found));
    }
    for fact in facts_of(alloc, space, relation)? {
        lines.made(row_line(alloc, &fact));
    }
    Ok(lines.done()?)
}

fn head_line(alloc: Global, relation: &Relation) -> Result<String, AllocError> {
    let mut line = Text::new(alloc);
    for (place, column) in relation.columns.iter().enumerate() {
        line.push_str(if 0 < place { "," } else { "" });
        line.push_str(column.name.as_str());
    }
    line.done()
}

fn row_line(alloc: Global, fact: &Fact) -> Result<String, AllocError> {
    let mut line = Text::new(alloc);
    for (place, value) in fact.values.iter().enumerate() {
        line.push_str(if 0 < place { "," } else { "" });
        add_cell(&mut line, value);
    }
    line.done()
}

fn add_cell(line: &mut Text, value: &Value) {
    match value {
        Value::Text(text) => add_csv_cell(line, text.as_str()),
        _ => add_value(line, value),
    }
}

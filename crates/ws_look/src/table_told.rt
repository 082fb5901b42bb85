//! The lines and the objects of `show`.

use crate::tables::{Told, first_of};
use base_types::Memory;
use std::alloc::{AllocError, Global};
use ws_command::Paging;
use ws_json::{Items, Object};
use ws_print::{Lines, Table, Text, add_count, add_ranges};
use ws_reply::{column_items, number_items, number_of, object_of, row_items};
use ws_space::Space;
use ws_written::Column;

/// The tables, with empty lines between them.
pub(crate) fn lines(
    alloc: Global,
    space: &Space,
    tables: &[Told<'_>],
    paging: &Paging,
) -> Result<Vec<String>, Memory> {
    let mut lines = Lines::new(alloc);
    for told in tables {
        if !lines.is_empty() {
            lines.push_str("");
        }
        add_lines(alloc, &mut lines, told, paging)?;
    }
    if lines.is_empty() {
        lines.push_str(nothing(space));
    }
    Ok(lines.done()?)
}

fn nothing(space: &Space) -> &'static str {
    if space.relations.is_empty() {
        "no relations"
    } else {
        "no rows"
    }
}

fn add_lines(
    alloc: Global,
    lines: &mut Lines,
    told: &Told<'_>,
    paging: &Paging,
) -> Result<(), Memory> {
    lines.made(title(alloc, told, paging));
    add_table(alloc, lines, told)?;
    let until = first_of(paging).saturating_add(told.rows.len());
    if until < told.count {
        let more = told.count.saturating_sub(until);
        lines.made(format!(in alloc; ".. and {more} more"));
    }
    if told.is_whole && !told.waiting.is_empty() {
        lines.made(waiting_line(alloc, told.waiting.as_slice()));
    }
    Ok(())
}

fn waiting_line(alloc: Global, waiting: &[u32]) -> Result<String, AllocError> {
    let mut line = Text::from_str(alloc, "waiting: ");
    add_ranges(&mut line, waiting);
    line.done()
}

fn title(alloc: Global, told: &Told<'_>, paging: &Paging) -> Result<String, Memory> {
    let mut title = Text::from_str(alloc, told.relation.name.as_str());
    title.push_str(": ");
    if told.count == 0 {
        title.push_str("no rows");
    } else {
        add_count(&mut title, told.count, "row");
    }
    let first = first_of(paging);
    if 0 < first {
        let first = first.saturating_add(1);
        write!(title, ", from {first}");
    }
    Ok(title.done()?)
}

fn add_table(alloc: Global, lines: &mut Lines, told: &Told<'_>) -> Result<(), Memory> {
    let mut table = Table::new(alloc);
    for column in &told.relation.columns {
        table.add_column(column_name(alloc, column)?.as_str())?;
    }
    for row in &told.rows {
        table.add_row(row.values.as_slice())?;
    }
    table.add_to(lines);
    Ok(())
}

// The name of the column, with a star if it belongs to the key.
fn column_name(alloc: Global, column: &Column) -> Result<String, AllocError> {
    let mut name = Text::from_str(alloc, column.name.as_str());
    if column.key {
        name.push('*');
    }
    name.done()
}

/// The tables, each as an object.
pub(crate) fn objects(
    alloc: Global,
    tables: &[Told<'_>],
    paging: &Paging,
) -> Result<Vec<Object>, Memory> {
    let mut objects = Vec::new(alloc);
    for told in tables {
        objects.push(object(alloc, told, paging.from))?;
    }
    if objects.is_empty() {
        objects.push(no_table(alloc))?;
    }
    Ok(objects)
}

fn no_table(alloc: Global) -> Object {
    let mut object = object_of(alloc, "table");
    object.items("rows", Items::new(alloc));
    object
}

fn object(alloc: Global, told: &Told<'_>, from: Option<u32>) -> Object {
    let mut object = object_of(alloc, "table");
    object.text("relation", told.relation.name.as_str());
    object.items("columns", column_items(alloc, told.relation));
    object.number("count", number_of(told.count));
    object.items("waiting", number_items(alloc, told.waiting.as_slice()));
    object.items("rows", row_items(alloc, told.rows.as_slice()));
    if let Some(from) = from {
        object.number("from", i64::from(from));
    }
    object
}

//! The tables of a page.

use crate::pages::Document;
use crate::texts::{facts_of, relation_at};
use base_types::Memory;
use std::alloc::{AllocError, Global};
use ws_draw::add_html;
use ws_print::{Text, add_count, add_value};
use ws_space::Space;
use ws_written::{Column, Fact, Relation, Value};

/// Adds each table.
pub(crate) fn add_tables(document: &mut Document, space: &Space) -> Result<(), Memory> {
    document.say("<h2 id=\"tables\">Tables</h2>");
    for (place, relation) in space.relations.iter().enumerate() {
        let facts = facts_of(document.alloc, space, relation_at(place))?;
        add_table(document, relation, facts.as_slice());
    }
    Ok(())
}

fn add_table(document: &mut Document, relation: &Relation, facts: &[Fact]) {
    let alloc = document.alloc;
    document.made(head_line(alloc, relation, facts.len()));
    for fact in facts {
        document.made(row_line(alloc, fact));
    }
    document.say("</table></div>");
}

// The first line of a table, with its columns.
fn head_line(alloc: Global, relation: &Relation, rows: usize) -> Result<String, AllocError> {
    let mut line = Text::from_str(alloc, "<div class=\"wide\"><table><caption>");
    add_html(&mut line, relation.name.as_str());
    line.push_str(", ");
    add_count(&mut line, rows, "row");
    line.push_str("</caption><tr>");
    for column in relation.columns.iter() {
        add_column(&mut line, column);
    }
    line.push_str("</tr>");
    line.done()
}

fn add_column(line: &mut Text, column: &Column) {
    line.push_str("<th scope=\"col\">");
    add_html(line, column.name.as_str());
    line.push_str(if column.key { "*</th>" } else { "</th>" })
}

fn row_line(alloc: Global, fact: &Fact) -> Result<String, AllocError> {
    let mut line = Text::from_str(alloc, "<tr>");
    for value in fact.values.iter() {
        add_cell(&mut line, value);
    }
    line.push_str("</tr>");
    line.done()
}

fn add_cell(line: &mut Text, value: &Value) {
    match value {
        Value::Text(text) => {
            line.push_str("<td>");
            add_html(line, text.as_str());
        }
        Value::Number(_) => {
            line.push_str("<td class=\"n\">");
            add_value(line, value);
        }
        _ => {
            line.push_str("<td class=\"u\">");
            add_value(line, value);
        }
    }
    line.push_str("</td>")
}

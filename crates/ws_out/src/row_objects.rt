//! Rows as objects of JSON, one for each line.

use crate::texts::{facts_of, json_text};
use std::alloc::{AllocError, Global};
use std::fmt::Write;
use ws_fault::Refusal;
use ws_print::{Lines, Text, add_value as add_said};
use ws_space::Space;
use ws_written::{Fact, Relation, Value};

/// Adds an object for each row of a relation.
pub(crate) fn add_objects(
    alloc: Global,
    lines: &mut Lines,
    space: &Space,
    relation: u32,
) -> Result<(), Refusal> {
    let Some(found) = space.relations.get(relation as usize) else {
        return Ok(());
    };
    let begin = beginning(alloc, found)?;
    let keys = keys_of(alloc, found)?;
    for fact in facts_of(alloc, space, relation)? {
        lines.made(object_line(alloc, begin.as_str(), keys.as_slice(), &fact));
    }
    Ok(())
}

// The text before the members of a row.
fn beginning(alloc: Global, relation: &Relation) -> Result<String, AllocError> {
    let name = json_text(alloc, relation.name.as_str())?;
    format!(in alloc; "{{\"relation\":{name},\"row\":{{")
}

// The names of the columns, each with its colon.
fn keys_of(alloc: Global, relation: &Relation) -> Result<Vec<String>, AllocError> {
    let mut keys = Vec::new(alloc);
    for column in relation.columns.iter() {
        let name = json_text(alloc, column.name.as_str())?;
        keys.push(format!(in alloc; "{name}:")?)?;
    }
    Ok(keys)
}

fn object_line(
    alloc: Global,
    begin: &str,
    keys: &[String],
    fact: &Fact,
) -> Result<String, AllocError> {
    let mut line = Text::from_str(alloc, begin);
    for (place, key) in keys.iter().enumerate() {
        if let Some(value) = fact.values.get(place) {
            line.push_str(if 0 < place { "," } else { "" });
            line.push_str(key.as_str());
            add_value(alloc, &mut line, value);
        }
    }
    line.push_str("}}");
    line.done()
}

fn add_value(alloc: Global, line: &mut Text, value: &Value) {
    match value {
        Value::Number(number) => write!(line, "{number}"),
        Value::Text(text) => line.made(json_text(alloc, text.as_str())),
        unknown => {
            line.push_str("{\"unknown\":\"");
            add_said(line, unknown);
            line.push_str("\"}")
        }
    }
}

//! Items, objects and refusals of many commands.

use crate::replies::{Kind, Reply};
use def_memory::Memory;
use std::alloc::Global;
use ws_fault::{Fault, Status};
use ws_json::{Items, Object};
use ws_print::{Text, add_value};
use ws_written::{Fact, Relation, Value};

/// A count as a number of an object.
pub fn number_of(count: usize) -> i64 {
    i64::try_from(count).unwrap_or(i64::MAX)
}

/// The lines as one text, with line feeds between them.
pub fn lines_text(alloc: Global, lines: &[String]) -> Result<String, Memory> {
    let mut text = Text::new(alloc);
    for (place, line) in lines.iter().enumerate() {
        if 0 < place {
            text.push('\n');
        }
        text.push_str(line.as_str());
    }
    Ok(text.done()?)
}

/// An object with the member `reply`, the kind of reply, and nothing else yet.
pub fn object_of(alloc: Global, reply: &str) -> Object {
    let mut object = Object::new(alloc);
    object.text("reply", reply);
    object
}

/// The numbers as items.
pub fn number_items(alloc: Global, numbers: &[u32]) -> Items {
    let mut items = Items::new(alloc);
    for number in numbers {
        items.number(i64::from(*number));
    }
    items
}

/// The texts as items.
pub fn text_items(alloc: Global, texts: &[String]) -> Items {
    let mut items = Items::new(alloc);
    for text in texts {
        items.text(text.as_str());
    }
    items
}

/// The names of the relation's columns as items.
pub fn column_items(alloc: Global, relation: &Relation) -> Items {
    let mut items = Items::new(alloc);
    for column in &relation.columns {
        items.text(column.name.as_str());
    }
    items
}

/// Rows as items, each a list of its values: a number, a text, or an object that names the unknown.
pub fn row_items(alloc: Global, rows: &[Fact]) -> Items {
    let mut items = Items::new(alloc);
    for row in rows {
        items.items(cells(alloc, row));
    }
    items
}

fn cells(alloc: Global, row: &Fact) -> Items {
    let mut cells = Items::new(alloc);
    for value in &row.values {
        match value {
            Value::Number(number) => cells.number(*number),
            Value::Text(text) => cells.text(text.as_str()),
            unknown => cells.object(unknown_object(alloc, unknown)),
        }
    }
    cells
}

fn unknown_object(alloc: Global, unknown: &Value) -> Object {
    let mut name = Text::new(alloc);
    add_value(&mut name, unknown);
    let mut object = Object::new(alloc);
    object.made("unknown", name.done());
    object
}

/// The reply to a command that only looks, in lines of text.
pub fn seen_text(status: Status, lines: Vec<String>) -> Reply {
    Reply::of_text(status, Kind::Look, lines)
}

/// The reply to a command that only looks, as objects.
pub fn seen_objects(alloc: Global, status: Status, objects: Vec<Object>) -> Result<Reply, Memory> {
    Ok(Reply::of_objects(alloc, status, Kind::Look, objects)?)
}

/// The reply to a command that only looks, as one object.
pub fn seen_object(alloc: Global, status: Status, object: Object) -> Result<Reply, Memory> {
    Ok(Reply::of_object(alloc, status, Kind::Look, object)?)
}

/// The fault of a refused command, with these words and this hint.
pub fn refused(alloc: Global, words: String, hint: Option<String>) -> Fault {
    Fault {
        status: Status::Refused,
        words,
        place: None,
        hint,
        more: Vec::new(alloc),
    }
}

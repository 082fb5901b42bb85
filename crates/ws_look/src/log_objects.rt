//! The objects of `log`.

use crate::entries::{Entry, entries_of};
use crate::log::{FIRST, MOST};
use base_types::Memory;
use std::alloc::Global;
use ws_json::{Items, Object};
use ws_reply::{number_of, object_of};
use ws_space::{Recorded, Space, Statuses};

/// The lines of the records, each as an object.
pub(crate) fn entry_objects(
    alloc: Global,
    space: &Space,
    records: &[Recorded],
) -> Result<Vec<Object>, Memory> {
    let statuses = Statuses::of(alloc, &space.state)?;
    let mut objects = Vec::new(alloc);
    for recorded in records {
        let entries = entries_of(alloc, space, Some(&statuses), recorded, usize::MAX)?;
        add_entries(alloc, &mut objects, entries.as_slice())?;
    }
    if objects.is_empty() {
        objects.push(no_entry(alloc))?;
    }
    Ok(objects)
}

// Adds the lines of a record. If there are many, only the first of them have their comments.
fn add_entries(
    alloc: Global,
    objects: &mut Vec<Object>,
    entries: &[Entry<'_>],
) -> Result<(), Memory> {
    let told = if entries.len() <= MOST { MOST } else { FIRST };
    for (place, entry) in entries.iter().enumerate() {
        objects.push(entry_object(alloc, entry, place < told))?;
    }
    Ok(())
}

fn no_entry(alloc: Global) -> Object {
    let mut object = object_of(alloc, "log");
    object.none("line");
    object
}

fn entry_object(alloc: Global, entry: &Entry<'_>, has_comment: bool) -> Object {
    let mut object = object_of(alloc, "log");
    object.number("at", i64::from(entry.at));
    object.text("time", entry.stamp.time.as_str());
    object.text("curator", entry.stamp.curator.as_str());
    add_entry(&mut object, entry, has_comment);
    object
}

// Adds the line of an entry, and its number, state and comment if it has them.
fn add_entry(object: &mut Object, entry: &Entry<'_>, has_comment: bool) {
    object.text("line", entry.text.as_str());
    if let Some(number) = entry.number {
        object.number("number", i64::from(number));
        object.text("state", entry.state);
    }
    if has_comment && !entry.comment.is_empty() {
        object.text("comment", entry.comment);
    }
}

/// The records, each as an object with its first lines.
pub(crate) fn record_objects(
    alloc: Global,
    space: &Space,
    records: &[Recorded],
) -> Result<Vec<Object>, Memory> {
    let mut objects = Vec::new(alloc);
    for recorded in records {
        objects.push(record_object(alloc, space, recorded)?)?;
    }
    if objects.is_empty() {
        objects.push(no_record(alloc, space))?;
    }
    Ok(objects)
}

fn no_record(alloc: Global, space: &Space) -> Object {
    let mut object = object_of(alloc, "record");
    object.number("at", i64::from(space.at()));
    object.number("count", 0);
    object.items("lines", Items::new(alloc));
    object.items("tables", Items::new(alloc));
    object
}

fn record_object(alloc: Global, space: &Space, recorded: &Recorded) -> Result<Object, Memory> {
    let entries = entries_of(alloc, space, None, recorded, FIRST)?;
    let mut object = object_of(alloc, "record");
    object.number("at", i64::from(recorded.at));
    object.text("time", recorded.record.stamp.time.as_str());
    object.text("curator", recorded.record.stamp.curator.as_str());
    object.number("count", number_of(recorded.record.lines.len()));
    object.items("lines", line_items(alloc, entries.as_slice()));
    object.items("tables", table_items(alloc, space, recorded));
    Ok(object)
}

// The first lines, as items.
fn line_items(alloc: Global, entries: &[Entry<'_>]) -> Items {
    let mut items = Items::new(alloc);
    for entry in entries.iter() {
        items.object(line_object(alloc, entry));
    }
    items
}

fn line_object(alloc: Global, entry: &Entry<'_>) -> Object {
    let mut object = Object::new(alloc);
    add_entry(&mut object, entry, true);
    object
}

// The names of the relations whose tuples the record changed.
fn table_items(alloc: Global, space: &Space, recorded: &Recorded) -> Items {
    let mut items = Items::new(alloc);
    for table in recorded.tables.iter() {
        if let Some(relation) = space.relations.get(*table as usize) {
            items.text(relation.name.as_str());
        }
    }
    items
}

//! The object of `status`.

use crate::counts::Counts;
use crate::status::last_part;
use base_types::Memory;
use std::alloc::Global;
use ws_json::{Items, Object};
use ws_print::{Text, add_stamp};
use ws_reply::{Context, column_items, number_of, object_of};
use ws_space::Space;
use ws_written::Relation;

/// The object of what the workspace has.
pub(crate) fn status_object(
    alloc: Global,
    space: &Space,
    context: &Context<'_>,
    counts: &Counts,
) -> Object {
    let mut object = object_of(alloc, "status");
    object.text("file", last_part(context.file));
    object.number("at", i64::from(space.at()));
    object.number("last", i64::from(space.state.last()));
    object.text("curator", context.curator);
    object.made("created", created_text(alloc, space));
    object.number("folded", i64::from(space.folded));
    object.number("stand", number_of(space.state.order().len()));
    object.number("unknowns", number_of(counts.unknowns));
    object.items("relations", relation_items(alloc, space, counts));
    object.items("in_force", in_force_items(alloc, space));
    object.object("proposed", proposed_object(alloc, space, counts));
    object.items("waits", waiting_items(alloc, space, counts));
    object
}

fn created_text(alloc: Global, space: &Space) -> Result<String, Memory> {
    let mut created = Text::new(alloc);
    add_stamp(&mut created, &space.created);
    Ok(created.done()?)
}

fn relation_items(alloc: Global, space: &Space, counts: &Counts) -> Items {
    let mut items = Items::new(alloc);
    for (place, relation) in space.relations.iter().enumerate() {
        items.object(relation_object(alloc, relation, counts.rows_at(place)));
    }
    items
}

fn relation_object(alloc: Global, relation: &Relation, count: usize) -> Object {
    let mut object = Object::new(alloc);
    object.text("name", relation.name.as_str());
    object.items("columns", column_items(alloc, relation));
    object.items("key", key_items(alloc, relation));
    object.number("count", number_of(count));
    object
}

// The numbers of the key's columns, counted from 1.
fn key_items(alloc: Global, relation: &Relation) -> Items {
    let mut items = Items::new(alloc);
    for (place, column) in relation.columns.iter().enumerate() {
        if column.key {
            items.number(number_of(place).saturating_add(1));
        }
    }
    items
}

fn in_force_items(alloc: Global, space: &Space) -> Items {
    let mut items = Items::new(alloc);
    for mapping in space.state.in_force() {
        items.text(space.mapping_name(*mapping));
    }
    items
}

fn proposed_object(alloc: Global, space: &Space, counts: &Counts) -> Object {
    let mut object = Object::new(alloc);
    for (mapping, count) in counts.proposed.iter() {
        object.number(space.mapping_name(*mapping), number_of(*count));
    }
    object
}

fn waiting_items(alloc: Global, space: &Space, counts: &Counts) -> Items {
    let mut items = Items::new(alloc);
    for waiting in counts.waiting.iter() {
        items.object(waiting_object(alloc, space, *waiting));
    }
    items
}

fn waiting_object(alloc: Global, space: &Space, waiting: u32) -> Object {
    let mut object = Object::new(alloc);
    object.number("number", i64::from(waiting));
    object.text("curator", space.curator_of(waiting));
    object.made("line", space.update_text(alloc, waiting));
    object
}

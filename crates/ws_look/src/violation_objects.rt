//! The objects of `violations`.

use crate::clashes::Clashes;
use crate::violating::{Lack, Told};
use crate::violation_lines::form_of;
use base_types::Memory;
use std::alloc::Global;
use ws_json::{Items, Object};
use ws_reply::{number_of, object_of, text_items};
use ws_space::Space;

/// The mappings with their violations, and the clashes of keys, each as an object.
pub(crate) fn objects(
    alloc: Global,
    space: &Space,
    told: &[Told],
    clashes: &[Clashes],
) -> Result<Vec<Object>, Memory> {
    let mut objects = Vec::new(alloc);
    for one in told {
        objects.push(object(alloc, space, one))?;
    }
    for one in clashes {
        objects.push(clashes_object(alloc, space, one))?;
    }
    if objects.is_empty() {
        objects.push(no_mapping(alloc))?;
    }
    Ok(objects)
}

fn no_mapping(alloc: Global) -> Object {
    let mut object = object_of(alloc, "violations");
    object.number("count", 0);
    object
}

fn object(alloc: Global, space: &Space, told: &Told) -> Object {
    let mut object = object_of(alloc, "violations");
    object.text("mapping", space.mapping_name(told.mapping));
    object.made("rule", space.rule_text(alloc, told.mapping));
    object.flag("in_force", told.in_force);
    object.number("count", number_of(told.count));
    object.items("violations", lack_items(alloc, told.first.as_slice()));
    object
}

fn lack_items(alloc: Global, lacks: &[Lack]) -> Items {
    let mut items = Items::new(alloc);
    for lack in lacks {
        let mut object = Object::new(alloc);
        object.items("since", text_items(alloc, lack.since.as_slice()));
        object.items("lacks", text_items(alloc, lack.lacks.as_slice()));
        items.object(object);
    }
    items
}

fn clashes_object(alloc: Global, space: &Space, clashes: &Clashes) -> Object {
    let mut object = object_of(alloc, "violations");
    object.made("key", form_of(alloc, space, clashes));
    object.number("count", number_of(clashes.groups.len()));
    object.items("violations", group_items(alloc, clashes.groups.as_slice()));
    object
}

fn group_items(alloc: Global, groups: &[Vec<String>]) -> Items {
    let mut items = Items::new(alloc);
    for group in groups {
        let mut object = Object::new(alloc);
        object.items("since", text_items(alloc, group.as_slice()));
        items.object(object);
    }
    items
}

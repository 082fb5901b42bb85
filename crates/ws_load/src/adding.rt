//! The tuples that mappings added to the rows.

use base_types::{Memory, Operation, Tuple};
use std::alloc::{AllocError, Global};
use std::collections::{BTreeMap, BTreeSet};
use ws_print::Text;
use ws_space::Space;
use ws_state::{MovedList, Standing};

/// For each relation, the number of tuples that came and that no row inserted; None if there are none.
pub(crate) fn added_text(
    alloc: Global,
    space: &Space,
    first: usize,
    came: &MovedList,
) -> Result<Option<String>, Memory> {
    let mine = inserted(alloc, space, first)?;
    let mut counts: BTreeMap<u16, usize> = BTreeMap::new(alloc);
    for moved in came.as_slice() {
        if !mine.contains(&moved.tuple) {
            let relation = moved.tuple.relation;
            let count = counts.get(&relation).copied().unwrap_or(0);
            counts.insert(relation, count.saturating_add(1))?;
        }
    }
    if counts.is_empty() {
        return Ok(None);
    }
    Ok(Some(told(alloc, space, &counts)?))
}

fn told(alloc: Global, space: &Space, counts: &BTreeMap<u16, usize>) -> Result<String, AllocError> {
    let mut text = Text::from_str(alloc, "the mappings added ");
    for (place, (relation, count)) in counts.iter().enumerate() {
        let name = name_of(space, *relation);
        text.push_str(if 0 < place { ", " } else { "" });
        write!(text, "{count} {name}");
    }
    text.done()
}

fn name_of(space: &Space, relation: u16) -> &str {
    match space.relations.get(usize::from(relation)) {
        Some(relation) => relation.name.as_str(),
        None => "",
    }
}

// The tuples, by names, that were inserted by the updates which stand from place `first` on.
fn inserted(alloc: Global, space: &Space, first: usize) -> Result<BTreeSet<Tuple>, Memory> {
    let mut tuples = BTreeSet::new(alloc);
    for standing in space.state.order().as_slice().iter().skip(first) {
        add_inserted(alloc, &mut tuples, space, standing)?;
    }
    Ok(tuples)
}

fn add_inserted(
    alloc: Global,
    tuples: &mut BTreeSet<Tuple>,
    space: &Space,
    standing: &Standing,
) -> Result<(), Memory> {
    for op in standing.ops.as_slice() {
        if let Operation::Insert(tuple) = &op.operation {
            tuples.insert(space.state.names().tuple(alloc, tuple)?)?;
        }
    }
    Ok(())
}

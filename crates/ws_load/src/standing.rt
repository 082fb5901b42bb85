//! The unknowns that stand.

use base_types::{Memory, Tuple, Value};
use std::alloc::Global;
use std::collections::BTreeSet;
use ws_space::{Space, unknown_of};
use ws_written::Unknown;

/// The unknowns that stand, in the order of their names.
pub(crate) fn standing_unknowns(alloc: Global, space: &Space) -> Result<Vec<Unknown>, Memory> {
    let mut set = BTreeSet::new(alloc);
    for place in 0..space.relations.len() {
        let rows = space.rows(alloc, u32::try_from(place).unwrap_or(u32::MAX))?;
        add_all_unknowns(&mut set, space, rows.as_slice())?;
    }
    let mut unknowns = Vec::new(alloc);
    for unknown in set {
        unknowns.push(unknown)?;
    }
    Ok(unknowns)
}

fn add_all_unknowns(
    set: &mut BTreeSet<Unknown>,
    space: &Space,
    rows: &[Tuple],
) -> Result<(), Memory> {
    for tuple in rows {
        add_unknowns(set, space, tuple)?;
    }
    Ok(())
}

fn add_unknowns(set: &mut BTreeSet<Unknown>, space: &Space, tuple: &Tuple) -> Result<(), Memory> {
    for value in tuple.values.as_slice() {
        if let Value::Null(null) = value {
            set.insert(unknown_of(space.state.names().name_of(*null)))?;
        }
    }
    Ok(())
}

//! What `status` counts.

use base_types::{Facts, Memory, Null, Tuple, Value};
use std::alloc::Global;
use std::collections::BTreeSet;
use ws_space::Space;

/// The counts: the tuples of each relation, the unknowns, the violations of each proposed mapping, and the updates that wait.
#[derive(Drop)]
pub(crate) struct Counts {
    pub rows: Vec<usize>,
    pub unknowns: usize,
    pub proposed: Vec<(u16, usize)>,
    pub waiting: Vec<u32>,
}

impl Counts {
    /// The number of tuples in the relation with this number.
    pub(crate) fn rows_at(&self, relation: usize) -> usize {
        self.rows.get(relation).copied().unwrap_or(0)
    }

    /// Whether a proposed mapping has a violation.
    pub(crate) fn has_violations(&self) -> bool {
        for (_, count) in self.proposed.iter() {
            if 0 < *count {
                return true;
            }
        }
        false
    }
}

/// The counts of the workspace.
pub(crate) fn counted(alloc: Global, space: &Space) -> Result<Counts, Memory> {
    Ok(Counts {
        unknowns: count_unknowns(alloc, space)?,
        rows: count_rows(alloc, space)?,
        proposed: count_violations(alloc, space)?,
        waiting: space.waiting_numbers(alloc)?,
    })
}

fn count_rows(alloc: Global, space: &Space) -> Result<Vec<usize>, Memory> {
    let mut rows = Vec::new(alloc);
    for number in 0..space.relations.len() {
        rows.push(space.count_rows(u32::try_from(number).unwrap_or(u32::MAX)))?;
    }
    Ok(rows)
}

// The proposed mappings, each with the number of its violations.
fn count_violations(alloc: Global, space: &Space) -> Result<Vec<(u16, usize)>, Memory> {
    let mut counts = Vec::new(alloc);
    for number in 0..space.rules.len() {
        let number = u16::try_from(number).unwrap_or(u16::MAX);
        if !space.state.in_force().contains(&number) && !space.state.is_gone(number) {
            counts.push((number, space.count_violations(alloc, number)?))?;
        }
    }
    Ok(counts)
}

fn count_unknowns(alloc: Global, space: &Space) -> Result<usize, Memory> {
    let mut nulls: BTreeSet<Null> = BTreeSet::new(alloc);
    let mut past: Option<&Tuple> = None;
    let facts = space.state.facts();
    for _ in 0..u64::MAX {
        let Some(tuple) = facts.beyond(past) else {
            break;
        };
        for value in tuple.values.as_slice() {
            if let Value::Null(null) = value {
                nulls.insert(*null)?;
            }
        }
        past = Some(tuple);
    }
    Ok(nulls.len())
}

//! Tuples with unknowns, by the values in their columns.

use base_types::{Memory, TryCopy, Tuple, Value};
use chase_match::Walk;
use std::alloc::Global;
use std::collections::BTreeMap;
use ws_space::{Space, has_unknown, is_unknown};

/// A column: for each value, the tuples with unknowns that have it there, in order.
#[derive(Drop)]
pub(crate) struct VagueColumn {
    tuples: BTreeMap<Value, Vec<Tuple>>,
}

impl VagueColumn {
    fn add(&mut self, alloc: Global, value: &Value, tuple: &Tuple) -> Result<(), Memory> {
        if let Some(tuples) = self.tuples.get_mut(value) {
            tuples.push(tuple.share()?)?;
            return Ok(());
        }
        let mut tuples = Vec::new(alloc);
        tuples.push(tuple.share()?)?;
        match self.tuples.insert(value.copy(alloc)?, tuples) {
            Ok(_) => Ok(()),
            Err(_) => Err(Memory),
        }
    }

    /// The tuples with unknowns that have the value in the column, in order.
    pub fn with(&self, value: &Value) -> &[Tuple] {
        match self.tuples.get(value) {
            Some(tuples) => tuples.as_slice(),
            None => &[],
        }
    }
}

fn add_tuple(alloc: Global, columns: &mut Vec<VagueColumn>, tuple: &Tuple) -> Result<(), Memory> {
    for (place, column) in columns.iter_mut().enumerate() {
        match tuple.values.get(place) {
            Some(value) if !is_unknown(value) => column.add(alloc, value, tuple)?,
            _ => {}
        }
    }
    Ok(())
}

/// The columns of a relation with its tuples that have unknowns; empty if there is no unknown at all.
pub(crate) fn vague_of(
    alloc: Global,
    space: &Space,
    relation: u16,
) -> Result<Vec<VagueColumn>, Memory> {
    if space.state.names().len() == 0 {
        return Ok(Vec::new(alloc));
    }
    let mut columns = empty_columns(alloc, space, relation)?;
    add_vague(alloc, &mut columns, space, relation)?;
    Ok(columns)
}

// A column without tuples for each column of the relation.
fn empty_columns(alloc: Global, space: &Space, relation: u16) -> Result<Vec<VagueColumn>, Memory> {
    let mut columns = Vec::new(alloc);
    if let Some(declared) = space.relations.get(usize::from(relation)) {
        for _ in declared.columns.iter() {
            let tuples = BTreeMap::new(alloc);
            columns.push(VagueColumn { tuples })?;
        }
    }
    Ok(columns)
}

// Adds the tuples of the relation that have unknowns.
fn add_vague(
    alloc: Global,
    columns: &mut Vec<VagueColumn>,
    space: &Space,
    relation: u16,
) -> Result<(), Memory> {
    let mut walk = Walk::new(space.state.facts(), relation, None);
    for _ in 0..u64::MAX {
        let Some(tuple) = walk.next() else {
            break;
        };
        if has_unknown(tuple) {
            add_tuple(alloc, columns, tuple)?;
        }
    }
    Ok(())
}

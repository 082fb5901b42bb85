//! The mappings of a dump that are in force from its start.

use crate::hidden::{Fix, Hidden};
use base_types::{Atom, List, Mapping, MappingList, Memory, Operation, TryCopy};
use std::alloc::Global;
use ws_run::{drawing_mapping, fixing_mapping};
use ws_space::Space;

/// The mappings in force before the updates that stand from place `cut` on, and then the hidden ones.
pub(crate) fn first_mappings(
    alloc: Global,
    space: &Space,
    hidden: &Hidden,
    cut: usize,
) -> Result<MappingList, Memory> {
    let mut mappings = MappingList::new(alloc);
    match add_first(alloc, &mut mappings, space, hidden, cut) {
        Ok(()) => Ok(mappings),
        Err(memory) => {
            drop(mappings);
            Err(memory)
        }
    }
}

fn add_first(
    alloc: Global,
    mappings: &mut MappingList,
    space: &Space,
    hidden: &Hidden,
    cut: usize,
) -> Result<(), Memory> {
    let in_force = space.state.in_force();
    let before = in_force.len().saturating_sub(enacted_from(space, cut));
    for mapping in in_force.iter().take(before) {
        add_mapping(alloc, mappings, space, *mapping, 0)?;
    }
    add_hidden(alloc, mappings, space, hidden)
}

// Adds the hidden mappings.
fn add_hidden(
    alloc: Global,
    mappings: &mut MappingList,
    space: &Space,
    hidden: &Hidden,
) -> Result<(), Memory> {
    if hidden.want.is_some() {
        mappings.push(moved(alloc, drawing_mapping(alloc)?, hidden, None)?)?;
    }
    for fix in hidden.fixes.iter() {
        add_fix(alloc, mappings, space, hidden, *fix)?;
    }
    Ok(())
}

/// Adds a mapping of the workspace, in force since update `since` of the dump.
pub(crate) fn add_mapping(
    alloc: Global,
    mappings: &mut MappingList,
    space: &Space,
    mapping: u16,
    since: u32,
) -> Result<(), Memory> {
    if let Some(declared) = space.state.mappings().get(usize::from(mapping)) {
        let mut copy = declared.copy(alloc)?;
        copy.since = since;
        mappings.push(copy)?;
    }
    Ok(())
}

// The number of mappings that the updates which stand from place `cut` on put in force.
fn enacted_from(space: &Space, cut: usize) -> usize {
    let mut count = 0usize;
    for standing in space.state.order().as_slice().iter().skip(cut) {
        for op in standing.ops.as_slice() {
            if let Operation::Enact(_) = &op.operation {
                count = count.saturating_add(1);
            }
        }
    }
    count
}

fn add_fix(
    alloc: Global,
    mappings: &mut MappingList,
    space: &Space,
    hidden: &Hidden,
    fix: Fix,
) -> Result<(), Memory> {
    if let Some(declared) = space.state.mappings().get(usize::from(fix.mapping)) {
        let mapping = fixing_mapping(alloc, declared)?;
        mappings.push(moved(alloc, mapping, hidden, Some(fix.mapping))?)?;
    }
    Ok(())
}

// A hidden mapping with the numbers that hidden relations have in a dump.
fn moved(
    alloc: Global,
    mapping: Mapping,
    hidden: &Hidden,
    repaired: Option<u16>,
) -> Result<Mapping, Memory> {
    Ok(Mapping {
        left: moved_atoms(alloc, mapping.left.as_slice(), hidden, repaired)?,
        right: moved_atoms(alloc, mapping.right.as_slice(), hidden, repaired)?,
        name: mapping.name,
        names: mapping.names,
        universal: mapping.universal,
        since: 0,
    })
}

fn moved_atoms(
    alloc: Global,
    atoms: &[Atom],
    hidden: &Hidden,
    repaired: Option<u16>,
) -> Result<List<Atom>, Memory> {
    let mut moved = List::new(alloc);
    for atom in atoms {
        moved.push(Atom {
            relation: hidden.number_of(atom.relation, repaired),
            terms: atom.terms.copy(alloc)?,
        })?;
    }
    Ok(moved)
}

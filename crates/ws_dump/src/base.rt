//! The base of a dump: the tuples before its updates.

use base_types::{Memory, Null, Tuple, Value};
use std::alloc::Global;
use std::collections::{BTreeMap, BTreeSet};
use ws_run::{Step, WANT};
use ws_space::Space;

/// The tuples, within, before the updates that stand from place `cut` on.
pub(crate) fn tuples_before(
    alloc: Global,
    space: &Space,
    cut: usize,
) -> Result<BTreeSet<Tuple>, Memory> {
    let mut tuples = tuples_now(alloc, space)?;
    for standing in space.state.order().as_slice().iter().skip(cut).rev() {
        take_all_back(&mut tuples, standing.steps.as_slice())?;
    }
    tuples.retain(|tuple| tuple.relation < WANT);
    Ok(tuples)
}

fn tuples_now(alloc: Global, space: &Space) -> Result<BTreeSet<Tuple>, Memory> {
    let mut tuples = BTreeSet::new(alloc);
    for tuple in space.state.facts().list(alloc)?.into_vec() {
        tuples.insert(tuple)?;
    }
    Ok(tuples)
}

// Takes back what the steps did, the last step first.
fn take_all_back(tuples: &mut BTreeSet<Tuple>, steps: &[Step]) -> Result<(), Memory> {
    for step in steps.iter().rev() {
        take_back(tuples, step)?;
    }
    Ok(())
}

// Takes back what a step did.
fn take_back(tuples: &mut BTreeSet<Tuple>, step: &Step) -> Result<(), Memory> {
    for tuple in step.note.puts.as_slice() {
        tuples.remove(tuple);
    }
    for tuple in step.note.deleted.as_slice() {
        tuples.insert(tuple.share()?)?;
    }
    Ok(())
}

/// The nulls of the tuples, each with its place, from 1.
pub(crate) fn places_of(
    alloc: Global,
    tuples: &BTreeSet<Tuple>,
) -> Result<BTreeMap<Null, u32>, Memory> {
    let nulls = nulls_of(alloc, tuples)?;
    let mut places = BTreeMap::new(alloc);
    let mut place = 0u32;
    for null in nulls {
        place = place.saturating_add(1);
        places.insert(null, place)?;
    }
    Ok(places)
}

fn nulls_of(alloc: Global, tuples: &BTreeSet<Tuple>) -> Result<BTreeSet<Null>, Memory> {
    let mut nulls = BTreeSet::new(alloc);
    for tuple in tuples {
        for value in tuple.values.as_slice() {
            if let Value::Null(null) = value {
                nulls.insert(*null)?;
            }
        }
    }
    Ok(nulls)
}

//! Looking up updates by their numbers.

use def_memory::Memory;
use std::alloc::Global;
use std::collections::BTreeSet;
use ws_space::Space;

fn put(numbers: &mut BTreeSet<u32>, number: Option<u32>) -> Result<(), Memory> {
    match number {
        Some(number) => match numbers.insert(number) {
            Ok(_) => Ok(()),
            Err(_) => Err(Memory),
        },
        None => Ok(()),
    }
}

/// Whether the update waits.
pub(crate) fn is_waiting(space: &Space, number: u32) -> bool {
    for waiting in space.state.waiting().as_slice() {
        if space.number_at(waiting.held) == Some(number) {
            return true;
        }
    }
    false
}

/// The numbers of the updates that wait.
pub(crate) fn waiting_numbers(alloc: Global, space: &Space) -> Result<BTreeSet<u32>, Memory> {
    let mut numbers = BTreeSet::new(alloc);
    for waiting in space.state.waiting().as_slice() {
        put(&mut numbers, space.number_at(waiting.held))?;
    }
    Ok(numbers)
}

/// The numbers of the updates that are undone, or of all others.
pub(crate) fn undone_numbers(
    alloc: Global,
    space: &Space,
    is_undone: bool,
) -> Result<BTreeSet<u32>, Memory> {
    let mut numbers = BTreeSet::new(alloc);
    for held in space.state.held().iter() {
        if held.is_undone == is_undone {
            put(&mut numbers, Some(held.update.number))?;
        }
    }
    Ok(numbers)
}

/// The numbers of the updates that stand or wait with answers.
pub(crate) fn answered_numbers(alloc: Global, space: &Space) -> Result<BTreeSet<u32>, Memory> {
    let mut numbers = BTreeSet::new(alloc);
    for standing in space.state.order().as_slice() {
        if !standing.answers.is_empty() {
            put(&mut numbers, space.number_at(standing.held))?;
        }
    }
    for waiting in space.state.waiting().as_slice() {
        if !waiting.answers.is_empty() {
            put(&mut numbers, space.number_at(waiting.held))?;
        }
    }
    Ok(numbers)
}

/// Whether the update stands or waits with answers.
pub(crate) fn is_answered(alloc: Global, space: &Space, number: u32) -> Result<bool, Memory> {
    let numbers = answered_numbers(alloc, space)?;
    Ok(numbers.contains(&number))
}

/// The budget of the update; 0 if there is no update with this number.
pub(crate) fn steps_of(space: &Space, number: u32) -> u32 {
    match space.state.update(number) {
        Some(update) => update.steps,
        None => 0,
    }
}

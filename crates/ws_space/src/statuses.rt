//! The statuses of all updates, for callers that need many of them.

use base_types::Memory;
use std::alloc::Global;
use std::collections::BTreeMap;
use ws_state::{Held, State, Status};

/// The status of each update, by its number.
#[derive(Drop)]
pub struct Statuses {
    statuses: BTreeMap<u32, Status>,
}

impl Statuses {
    /// The statuses of the state's updates, found in one walk over them.
    pub fn of(alloc: Global, state: &State) -> Result<Statuses, Memory> {
        let places = by_places(alloc, state)?;
        let mut statuses = BTreeMap::new(alloc);
        for (place, held) in state.held().iter().enumerate() {
            if let Some(status) = places.get(place) {
                statuses.insert(held.update.number, *status)?;
            }
        }
        Ok(Statuses { statuses })
    }

    /// The status of the update with this number; None if there is none.
    pub fn status(&self, number: u32) -> Option<Status> {
        self.statuses.get(&number).copied()
    }
}

// The statuses by the places of the held updates.
fn by_places(alloc: Global, state: &State) -> Result<Vec<Status>, Memory> {
    let mut places = undone_or_given_up(alloc, state.held().as_slice())?;
    for standing in state.order().as_slice() {
        mark(&mut places, standing.held, Status::Stands);
    }
    for waiting in state.waiting().as_slice() {
        mark(&mut places, waiting.held, Status::Waits);
    }
    Ok(places)
}

// The statuses as if no update stood or waited.
fn undone_or_given_up(alloc: Global, updates: &[Held]) -> Result<Vec<Status>, Memory> {
    let mut places = Vec::new(alloc);
    for held in updates {
        places.push(if held.is_undone {
            Status::Undone
        } else {
            Status::GivenUp
        })?;
    }
    Ok(places)
}

// Sets the status at a place, unless the update there is undone.
fn mark(places: &mut [Status], place: usize, status: Status) {
    if let Some(one) = places.get_mut(place) {
        if *one != Status::Undone {
            *one = status;
        }
    }
}

//! The updates that wait.

use base_types::Memory;
use std::alloc::Global;
use ws_space::{Space, speaks_of};

/// The numbers of the waiting updates that have tuples of the relation, in rising order.
pub(crate) fn waiting_for(alloc: Global, space: &Space, relation: u32) -> Result<Vec<u32>, Memory> {
    let mut numbers = Vec::new(alloc);
    for waiting in space.state.waiting().as_slice() {
        if let Some(held) = space.state.held().get(waiting.held) {
            if speaks_of(&held.update.deed, relation) {
                numbers.push(held.update.number)?;
            }
        }
    }
    numbers.sort_unstable();
    Ok(numbers)
}

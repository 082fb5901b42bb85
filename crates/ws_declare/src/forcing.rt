//! Putting a mapping in force.

use std::alloc::Global;
use ws_fault::Refusal;
use ws_report::{Taken, take_update};
use ws_space::Space;
use ws_written::{STEPS, Update};

/// Puts the mapping with this name in force.
pub(crate) fn force(alloc: Global, space: &mut Space, name: &str) -> Result<Taken, Refusal> {
    let name = String::from_str(alloc, name)?;
    take_update(alloc, space, STEPS, Update::Force(name))
}

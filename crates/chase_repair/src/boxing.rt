//! Values on the heap.
ghost use Rattle.std.specs.Prelude.{◌≡◌, IfOk};

use base_types::Memory;
use std::alloc::Global;

/// A pointer to the value, so that the type that holds it is small and cheap to move.
pub fn boxed<T: Drop>(alloc: Global, value: T) -> Result<Box<T>, Memory>
    ensures same { IfOk result (λ held. held.value ≡ value) }
{
    match Box::new(alloc, value) {
        Ok(held) => Ok(held),
        Err(_) => Err(Memory),
    }
}

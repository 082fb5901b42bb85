//! A worker and its seat.

use def_memory::Memory;

/// A seat, and the result of its worker. Contracts mention this type; code outside the crate cannot make one.
#[derive(Drop)]
pub struct Worker<S> {
    pub(crate) seat: S,
    pub(crate) result: Result<(), Memory>,
}

// A worker and its seat.
use crate::board::Board;
use def_memory::Memory;
use work_lock::Seat;

/// A seat, and what its worker answered.
#[derive(Drop)]
pub struct Worker {
    pub seat: Seat<Board>,
    pub result: Result<(), Memory>,
}

//! Faults of a command, and refusals.

use crate::statuses::Status;
use def_memory::Memory;
use std::alloc::{AllocError, AllocFailed};

/// What is wrong with a command.
#[derive(Drop)]
pub struct Fault {
    pub status: Status,
    pub words: String,
    /// The place in the line, in characters from 0, if there is one.
    pub place: Option<usize>,
    /// A way to mend it.
    pub hint: Option<String>,
    /// Further faults, each on a line of its own.
    pub more: Vec<String>,
}

/// The reason why a call has no answer.
#[derive(Drop)]
pub enum Refusal {
    Fault(Fault),
    Memory,
}

impl From<AllocError> for Refusal {
    fn from(_error: AllocError) -> Refusal {
        Refusal::Memory
    }
}

impl<T: Drop> From<AllocFailed<T>> for Refusal {
    fn from(_error: AllocFailed<T>) -> Refusal {
        Refusal::Memory
    }
}

impl From<Memory> for Refusal {
    fn from(_error: Memory) -> Refusal {
        Refusal::Memory
    }
}

impl From<Fault> for Refusal {
    fn from(fault: Fault) -> Refusal {
        Refusal::Fault(fault)
    }
}

//! Faults of a load.

use std::alloc::Global;
use ws_fault::{Fault, Refusal, Status};

/// The refusal of a load that does not fit what is there.
pub(crate) fn refused(alloc: Global, words: String) -> Refusal {
    fault(alloc, Status::Refused, words, None)
}

/// A refusal by a fault without a place.
pub(crate) fn fault(alloc: Global, status: Status, words: String, hint: Option<String>) -> Refusal {
    Refusal::Fault(Fault {
        status,
        words,
        place: None,
        hint,
        more: Vec::new(alloc),
    })
}

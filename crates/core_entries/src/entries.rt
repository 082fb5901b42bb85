//! What an event did.

use crate::causes::CauseList;
use crate::standings::Standing;
use base_types::{Choice, List, WriteList};

/// What one event did. `standing` is the update's standing after the event, and `committed` the number of updates that are
/// committed after it.
#[derive(Debug, Drop)]
pub enum Entry {
    /// The update was admitted.
    Admitted {
        update: u32,
    },
    /// The update made a step of this attempt, and others see these writes.
    Stepped {
        update: u32,
        attempt: u32,
        standing: Standing,
        writes: WriteList,
        causes: CauseList,
        committed: u32,
    },
    /// The update's first recorded answer was delivered.
    Delivered {
        update: u32,
        standing: Standing,
    },
    /// A person answered the update's question.
    Answered {
        update: u32,
        choice: Choice,
        standing: Standing,
    },
    /// The update was withdrawn.
    Withdrawn {
        update: u32,
        causes: CauseList,
        committed: u32,
    },
}

/// The entries of a history, in order.
pub type EntryList = List<Entry>;

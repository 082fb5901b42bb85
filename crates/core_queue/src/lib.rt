//! The queue of a core: each update with its present attempt, what it may do next, and which of them comes first.
//!
//! `specs/Queues.antt` says what a queued update and a queue mean: the updates of a history of the chase. Each queued update of
//! a queue has the number of its place, from 1, and stands between two steps (`AreFrom 1 queue`). The contracts hold for the
//! machine of any mappings and any budget.
//!
//! What an event does to a queued update cannot fail: room and fresh attempts are made before the event.
#![tactic(auto)]

mod events;
mod order;
mod outcomes;
mod reading;
mod renewals;
mod settings;
mod standings;
mod unready;
mod updates;

pub use crate::order::{
    committed, committed_from, is_quiet, lowest_deliverable, lowest_ready, lowest_ready_besides,
    next_deliverable,
};
pub use crate::outcomes::{asked, has_spent, outcome, shown};
pub use crate::reading::reads_at_most;
pub use crate::renewals::{fresh_programs, restart_marked};
pub use crate::settings::{Deps, Settings};
pub use crate::unready::unready_from;
pub use crate::updates::QueuedUpdate;

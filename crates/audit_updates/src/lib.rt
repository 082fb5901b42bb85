//! The audited updates of a replay: each update with its present attempt, what it may do next, and what an event does
//! to it.
//!
//! `specs/Updates.antt` says what audited updates mean: they are the updates of a history of the chase. The audited updates of a
//! replay have the numbers of their places, from 1, and stand between two steps (`AreFrom 1 updates`). Contracts on them hold for
//! the machine of any mappings and any budget.
#![tactic(auto)]

mod events;
mod order;
mod outcomes;
mod renewals;
mod settings;
mod standings;
mod updates;

pub use crate::order::{committed, is_quiet};
pub use crate::outcomes::{has_spent, outcome, shown};
pub use crate::settings::{Deps, Settings};
pub use crate::updates::AuditedUpdate;

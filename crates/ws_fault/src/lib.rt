//! Statuses, faults, and the known name that a wrong name may have meant.
#![tactic(auto)]

mod faults;
mod near;
mod statuses;

pub use crate::faults::{Fault, Refusal};
pub use crate::near::{Nearest, meant};
pub use crate::statuses::Status;

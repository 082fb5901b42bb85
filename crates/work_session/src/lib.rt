//! A session run by worker threads: the core inside a desk, and the serial machine's result.
//!
//! `README.md` has the contract. `specs/Runs.antt` defines what a run comes to.
#![tactic(auto)]

mod seated;
mod sessions;
mod workers;

pub use crate::seated::{Answers, Seated};
pub use crate::sessions::{WorkedSession, Working, worked, worked_over};
pub use crate::workers::run;

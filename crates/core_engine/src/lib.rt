//! The core: the updates of a session, taken in steps in any order, with the history of all that was done.
//!
//! `README.md` has the contract. `specs/States.antt` says what a core is to its callers: what its history is over, and the
//! entries of that history. Each call that changes a core makes one event of that history.
#![tactic(auto)]

mod admissions;
mod admitting;
mod admitting_later;
mod aftermaths;
mod alone;
mod answering;
mod answers;
mod cores;
mod deliveries;
mod delivery;
mod draining;
mod known;
mod lives;
mod openings;
mod plans;
mod putting;
mod refusals;
mod results;
mod scenes;
mod standings;
mod stepping;
mod withdrawals;
mod withdrawing;

pub use crate::cores::Core;
pub use crate::lives::live_cores_are_serial;
pub use crate::plans::{Plan, Snapshot};
pub use crate::refusals::{
    AdmitRefusal, AnswerRefusal, DeliverRefusal, OpenRefusal, StepRefusal, WithdrawRefusal,
};
pub use crate::results::drained;

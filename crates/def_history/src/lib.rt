//! The theorem of histories for the chase: attempts in any order leave the same repository as updates one after the other.
//!
//! The definitions stand in `specs/`. Each function here is a law: its contract is the statement and its body is empty.
#![tactic(auto)]

pub mod any_order;
pub mod cores;
pub mod laws;
pub mod rows;
mod stale;

pub use crate::stale::{steps_stay, touches_tell};

//! Whether the base of a session meets the mappings that are in force from the start.
#![tactic(auto)]

mod base;

pub use crate::base::{Violated, base_violation};

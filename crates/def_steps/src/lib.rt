//! The chase: an update as steps that ask questions, updates taken whole, and the serial machine.
//!
//! The definitions stand in `specs/`. Each function here is a law: its contract is the statement and its body is empty.
#![tactic(auto)]

mod in_scope;
pub mod laws;
pub mod rows;

pub use crate::in_scope::{first_in_scope, violations_in_scope};

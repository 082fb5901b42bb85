//! The laws of whole logs of a workspace: what stands, the mappings that hold, and the names of unknowns.
//!
//! The definitions stand in `specs/`. Each function here is a law: its contract is the statement and its body is empty.
#![tactic(auto)]

pub mod laws;

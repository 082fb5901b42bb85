//! The meaning of a workspace's log: its lines, the state that they leave, the runs of updates, and the names of unknowns.
//!
//! The definitions stand in `specs/`. Each function here is a law: its contract is the statement and its body is empty.
#![tactic(auto)]

pub mod laws;

//! Why-provenance of the tuples that the serial machine leaves: which step put a tuple and from which tuples, and so on back to
//! the base and to insertions by curators.
//!
//! The definitions stand in `specs/`. Each function here is a law: its contract is the statement and its body is empty.
#![tactic(auto)]

pub mod laws;

//! A line of JSON, written token by token: the compact text of its values, with keys in the order in which they are given.
//!
//! Texts are bytes, and need not be UTF-8. `specs/Lines.antt` says what a token and a value add to a line, in the terms of the
//! kit's `json`.
#![tactic(auto)]

mod bytes;
mod laws;
mod lines;

pub use crate::laws::lines_add_values;
pub use crate::lines::Line;

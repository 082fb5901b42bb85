//! The serial run of a session: its updates taken whole over a repository, one after the other in the order of their numbers,
//! up to the first that stops at a question. `serial` returns the result of the serial machine of `def_steps`, and `trails` the
//! writes that each update leaves.
//!
//! The parts of a turn are public, so that a run which keeps more of its steps can use them.
#![tactic(auto)]

pub mod endings;
pub mod repositories;
mod runs;
mod trailing;
mod wholes;

pub use crate::runs::{base_of, mappings_of, serial, serial_over};
pub use crate::trailing::{TrailList, Trailed, trails};

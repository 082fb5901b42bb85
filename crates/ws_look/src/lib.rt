//! Commands that only look at a workspace: tables, questions, violations, the log, the status, and the help. Other crates make
//! `ask`, `why`, and the texts that may go to a file.
#![tactic(auto)]

mod clashes;
mod counts;
mod entries;
mod helping;
mod log;
mod log_objects;
mod log_one;
mod looking;
mod question_told;
mod questions;
mod rows;
mod status;
mod status_object;
mod table_told;
mod tables;
mod violating;
mod violation_lines;
mod violation_objects;
mod waiting;

pub use crate::helping::help;
pub use crate::looking::look;

//! Reads commands, with exact faults, and the records of a workspace's file.
//!
//! `read_command` reads the command of a line over the names that stand. Its error is the first fault from the left, with its
//! place and a hint, which may be the name that was meant. `read_stamp`, `read_line` and `read_head` read the parts of a file.
//! For a text that the program does not write they return None, without a fault.
//!
//! A loop that reads items is bounded by 2^64 turns. It never gets there: each turn takes a byte or more, or is the last.
#![tactic(auto)]

mod answers;
mod apart;
mod atoms;
mod bytes;
mod changes;
mod commands;
mod cursors;
mod facts;
mod failing;
mod head_lines;
mod heads;
mod items;
mod known;
mod loads;
mod looks;
mod numbers;
mod options;
mod queries;
mod records;
mod relations;
mod rows;
mod stamps;
mod standing;
mod texts;
mod updates;
mod values;

pub use crate::apart::set_apart;
pub use crate::commands::read_command;
pub use crate::heads::read_head;
pub use crate::known::has_name;
pub use crate::records::{read_line, read_stamp};
pub use crate::relations::read_relation;
pub use crate::rows::lines_of;
pub use crate::stamps::{is_name, is_time};
pub use crate::standing::{Names, place_of};

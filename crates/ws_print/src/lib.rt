//! The printed forms of values, tuples, mappings, lines, records, numbers, tables and faults, as a command takes them or a
//! terminal shows them.
//!
//! Each function adds to a text, which remembers a want of memory. Control characters, and marks that change the direction of
//! writing, are never printed as they are: a text has them as `\u{hex}`.
#![tactic(auto)]

mod escapes;
mod facts;
mod faults;
mod heads;
mod lines;
mod numbers;
mod rules;
mod tables;
mod texts;
mod updates;
mod values;

pub use crate::escapes::{add_escaped, add_letter, add_quoted, is_control};
pub use crate::facts::{add_fact, add_facts, add_new_fact, add_new_facts, add_pattern};
pub use crate::faults::{add_fault, has_control};
pub use crate::heads::add_head;
pub use crate::lines::{add_answer, add_choice, add_line, add_record, add_stamp};
pub use crate::numbers::{add_count, add_ranges};
pub use crate::rules::{add_atom, add_atoms, add_form, add_rule};
pub use crate::tables::{Table, add_cell};
pub use crate::texts::{Lines, Text};
pub use crate::updates::{add_numbered, add_update};
pub use crate::values::{add_new_value, add_unknown, add_value};

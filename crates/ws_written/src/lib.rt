//! The content of a workspace's file in plain types, as it is written there: values by their names, tuples, mappings, updates,
//! answers, lines, records and the head. All crates of the workspace share these types.
//!
//! A relation is named by its number: its place among the relations in the order of their declaration, from 0.
//! An unknown is named by the update that drew it and its place there. Texts are UTF-8 without U+0000.
#![tactic(auto)]

mod facts;
mod heads;
mod lines;
mod relations;
mod rules;
mod updates;
mod values;

pub use crate::facts::{Fact, NewFact};
pub use crate::heads::{Drawn, Head, Image, Waiting};
pub use crate::lines::{Answer, Choice, Line, Question, Record, SaidLine, Stamp};
pub use crate::relations::{Column, Relation};
pub use crate::rules::{Atom, Rule, Term};
pub use crate::updates::{NumberedUpdate, STEPS, Update};
pub use crate::values::{NewValue, Unknown, Value};

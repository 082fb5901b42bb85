//! The questions that the chase asks at its frontiers, and the answers that fit them.
#![tactic(auto)]

pub mod named;
pub mod outer_forms;
pub mod questions;

pub use crate::named::{candidate, is_named, named_tuples};
pub use crate::outer_forms::{has_outer_form, is_outer_form};
pub use crate::questions::{Question, fits};

//! The result of a core, in the form of the serial run's result: how the committed updates ended, where the lowest that is not
//! committed stops, and the repository that the committed ones left. Nulls are in their outer forms.
#![tactic(auto)]

mod finishes;
mod repositories;
mod results;
mod stops;

pub use crate::results::{left, told};

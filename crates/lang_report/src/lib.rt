//! The texts of a run: the result text, and a question on its own.
//!
//! The words of each line are laid out on a `Page`, as in a session. A contract says which lines a page has gained, by the
//! definitions of `specs/Results.antt`.
#![tactic(auto)]

mod finishes;
mod laws;
mod named;
mod questions;
mod renaming;
mod repositories;
mod results;
mod rows;
mod saving;

pub use crate::laws::names_keep_the_order;
pub use crate::results::{question_lines, result_text};
pub use crate::rows::{worked_results, worked_saves};
pub use crate::saving::{SaveRefusal, saved};

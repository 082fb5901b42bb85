//! Answers to updates that wait, `undo` and `redo`.
#![tactic(auto)]

mod answering;
mod choosing;
mod giving;
mod records;
mod replaying;
mod same;
mod several;
mod undoing;

pub use crate::answering::{SaidAnswer, answer};
pub use crate::several::answer_several;
pub use crate::undoing::{redo, undo, undo_answers};

//! The words that the program is called with, who calls it and when.
//!
//! The words are read by hand, because the command after FILE may have words that look like options, and because each fault has
//! words of its own.
#![tactic(auto)]

mod joins;
mod spoken;
mod steps;
mod times;
mod whose;

pub use crate::joins::{file_first, joined, wants_json};
pub use crate::spoken::{Asked, Words, read_words};
pub use crate::times::time_of;
pub use crate::whose::curator_of;

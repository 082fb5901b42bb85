//! The help: a table of the commands, and the pages made of it.
#![tactic(auto)]

mod details;
mod pages;
mod texts;

pub use crate::details::details_of;
pub use crate::pages::{USAGE, VERSION, help_text};
pub use crate::texts::{example_of, form_of, short_of};

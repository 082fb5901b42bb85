//! The words of the command line: which of them are refused, and what the others ask for.
#![tactic(auto)]

mod arguments;
mod help;
mod laws;
mod names;
mod reading;

pub use help::{HELP, VERSION_LINE};
pub use laws::{words_are_answered_or_refused, words_ask_for_one_thing, words_have_one_fault};
pub use names::{CommandName, Deps};
pub use reading::{Options, Request, WordsRefusal, read_words};

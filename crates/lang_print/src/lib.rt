//! The printed form of a session: each statement on a line of its own. Also the words of facts, answers and operations, for other
//! printers of such lines.
//!
//! Everything is written on a `Page`, word by word. A contract says which words, or which lines of words, a page has gained.
#![tactic(auto)]

mod choices;
mod lines;
mod operations;
mod sessions;
mod worded;

pub use crate::choices::with_choice;
pub use crate::sessions::{print_session, print_upgraded};
pub use crate::worded::{Worded, with_separated};

//! The outcome of a change: its report, as one value; the reply made of it, as lines of text or as an object; the lines to be
//! recorded; the updates that the change takes; and the faults that refuse a change.
#![tactic(auto)]

mod done;
mod faults;
mod notes;
mod objects;
mod replies;
mod reports;
mod rows;
mod running;
mod spending;
mod words;

pub use crate::done::{Done, add_line, lines_of, recorded};
pub use crate::faults::{refuse, refuse_made, refuse_with, spent};
pub use crate::notes::Note;
pub use crate::replies::CANDIDATES;
pub use crate::reports::{AgainTold, Counted, Report, Telling, no_effect};
pub use crate::rows::{MANY, moved_row};
pub use crate::running::{Taken, take_update, told_line};
pub use crate::spending::spent_fault;
pub use crate::words::{facts_text, joined, named_text, ranges_text, said_text};

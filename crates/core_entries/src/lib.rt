//! The entries of a history as the program has them: what each event did, and why it restarted others.
//!
//! `specs/Meanings.antt` says what a `Standing`, a `Cause` and an `Entry` mean, in the terms of the histories of `def_history`.
#![tactic(auto)]

mod causes;
mod entries;
mod standings;

pub use crate::causes::{Cause, CauseList};
pub use crate::entries::{Entry, EntryList};
pub use crate::standings::Standing;

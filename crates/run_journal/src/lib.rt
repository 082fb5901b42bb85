//! A journal of commits on a disk, which survives a crash at any moment.
//!
//! The README says how. `specs/Format.antt` has the format, and `specs/Journals.antt` says what bytes stand for.
#![tactic(auto)]

mod appending;
mod journals;
mod laws;
mod printing;
mod reading;
mod recovering;

pub use crate::appending::{PAYLOAD_LIMIT, append, create};
pub use crate::journals::{AppendFault, Commit, CreateFault, Journal, RecoverFault, Recovered};
pub use crate::laws::{
    crashes_keep_what_is_acknowledged, damaged_bytes_are_no_journal,
    inputs_are_journals_or_damaged, journals_have_one_reading,
};
pub use crate::recovering::recover;

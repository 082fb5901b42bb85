//! A session that grows statement by statement, with the checks of each statement.
//!
//! Contracts see a `Draft` as the session that has been taken so far, `SessionData` of `def_language`. They state the answer of
//! each call by the definitions of that crate's `Checks`. `Gives view result found` means: an answer, seen by `view`, is the one
//! that the definition `found` gives; a refusal other than want of memory is the fault that `found` gives; and want of memory may
//! come in place of any answer.
#![tactic(auto)]

mod bases;
mod cycles;
mod draft;
mod facts;
mod limits;
mod mappings;
mod refusals;
mod relations;
mod updates;

pub use crate::draft::Draft;
pub use crate::refusals::TakeRefusal;

//! The queries that an update asks of the repository, their answers, and the log of the reads that it has made.
//!
//! A `Query` and a `Reply` stand for the queries and replies of `def_chase`, by `query_of` and `reply_of` of
//! `specs/Meanings.antt`. `specs/Kinds.antt` says which answers are of a query's kind; the value of a query is always of its
//! kind.
#![tactic(auto)]

mod laws;
mod log;
mod queries;
mod replies;

pub use crate::laws::values_are_of_their_kind;
pub use crate::log::{Logged, LoggedRead, Passage, ReadLog, finds_none};
pub use crate::queries::{Query, mentions};
pub use crate::replies::Reply;

//! From bytes to a session, or to their first fault and its text for users; and from the text of a fact to a tuple.
//!
//! The clauses use the definitions of `def_language`: `Spells bytes s` says that the bytes spell the session s, and
//! `IsFirstFault bytes wrong` says that `wrong` is their first fault.
#![tactic(auto)]

mod faults;
mod lines;
mod reading;
mod split;
mod texts;
mod tuples;
mod words;

pub use crate::faults::{FaultKind, ReadFailure, SessionFault};
pub use crate::reading::read_session;
pub use crate::texts::fault_text;
pub use crate::tuples::{TupleText, read_fact, read_tuple, tuple_in};
pub use lang_forms::RawFact;

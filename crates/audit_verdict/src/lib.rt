//! An auditor of traces, which trusts no core: it decides whether bytes are the text of a legal history.
//!
//! `specs/Verdicts.antt` of `audit_claims` says what a verdict means, by the definitions of legal histories. The history is
//! replayed event by event (`audit_replay`), and each line is compared with the text of its entry.
#![tactic(auto)]

mod judging;
mod terms;
mod verdicts;

pub use crate::judging::audit;
pub use crate::terms::Terms;
pub use crate::verdicts::{Verdict, Why, verdict_line};

//! `audit` says yes to what `run --trace` writes: laws, each the contract of a function that does nothing.
//!
//! `specs/Circle.antt` says which runs the laws are about, and what the auditor reads.
#![tactic(auto)]

mod laws;

pub use crate::laws::{
    printed_sessions_are_inputs, runs_are_printable, traces_of_runs_are_judged,
    what_run_writes_is_audited,
};

//! What a run leaves, as laws over the definitions: it fits the session, and the saved session is a session whose base is what
//! the run left, under other names for its nulls.
//!
//! Each law is the contract of a function that does nothing, so that it is proved and can be cited.
#![tactic(auto)]

mod journals;
mod laws;

pub use crate::journals::{
    journals_recover_the_serial_run, openings_are_sessions, trails_are_logged,
};
pub use crate::laws::{
    bases_are_renamed, bases_meet_their_mappings, explanations_are_true, names_keep_mappings,
    runs_leave_facts, runs_meet_their_mappings, saved_sessions_are_sessions,
    upgrades_tell_the_same,
};

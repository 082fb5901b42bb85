//! Drains of kept histories. While an update is ready or an answer can be delivered, turns are made. A turn is a step of the
//! lowest ready update, else a delivery to the lowest update that can have one.
//!
//! The definitions stand in `specs/`. Each function is a law, whose contract is the statement and whose body is empty.
#![tactic(auto)]

mod admissible;
mod drains;
mod live;

pub use crate::admissible::{
    checked_sessions_are_admissible, mappings_hold_in_what_is_left, whole_histories_are_serial,
};
pub use crate::drains::{
    drained_sessions_are_serial, turns_keep_the_history, turns_lower_the_work,
};
pub use crate::live::{
    live_histories_are_serial, live_sessions_are_admissible, live_sessions_grow,
};

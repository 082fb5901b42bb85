//! Which entry of a history makes a step stale that was planned at an earlier state.
//!
//! The entries alone decide it: the writes that they show, the updates that they restart, and what these updates had shown
//! before. The definitions stand in `specs/`. The laws of `laws` and `rows` are functions whose contract is the statement and
//! whose body is empty.
#![tactic(auto)]

mod laws;
mod rows;
mod shown;
mod stale;

pub use crate::laws::{
    entries_tell_the_trails, ready_attempts_do_their_update, steps_stay_unless_stale,
};
pub use crate::rows::small_histories_compute;
pub use crate::stale::stale_by;

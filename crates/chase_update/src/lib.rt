//! An attempt at an update, as a value that asks queries and questions, takes their answers, and makes the steps of the chase.
//!
//! Contracts see an `Attempt` as a `State` of `specs/Courses.antt`: the attempt between two steps, or as it was when the step in
//! hand began, and that step. For the mappings `ms`, `course ms` of a state is the tree of the queries that the step still asks,
//! which ends in the attempt after the step. Each call that begins a step or takes an answer says which tree that is, by the
//! definition of the step in `def_steps`. `ms` is `mappings.now`. A look that passes over settled mappings has the same result
//! with no more queries (`IsShorter` of `specs/Settled.antt`).
//!
//! On `Err`, the attempt is unchanged.
#![tactic(auto)]

mod answering;
mod attempts;
mod copies;
mod counting;
mod ends;
mod found;
mod in_hand;
mod looking;
mod moves;
mod own;
mod passing;
mod points;
mod readings;
mod renewals;
mod repairing;
mod replacing;
mod results;
mod rows;
mod settled;
mod shared;
mod starting;
mod turns;
mod writes;
mod writing;

pub use crate::attempts::Attempt;
pub use crate::ends::{Outcome, Want};
pub use crate::found::standing_for;
pub use crate::results::{Finish, FinishList, Lack, SessionResult, Stop};

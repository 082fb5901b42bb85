//! One step of an update over the tuples below it: what comes next, and the step with its queries answered.
#![tactic(auto)]

mod stepping;
mod turns;

pub use crate::stepping::{make, see_all, step};
pub use crate::turns::{Next, what_next};

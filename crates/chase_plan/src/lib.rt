//! The next step of an attempt, planned over the repository below it while the attempt stays unchanged.
#![tactic(auto)]

mod plans;
mod settling;
mod touched;

pub use crate::plans::{Chase, Footing, Plan, plan_step};
pub use crate::settling::{settled_by, since, stir_since, told_by};
pub use crate::touched::TouchedMappings;

//! The limits of the chase: the numbers of mappings of a session, of existential variables of a mapping, and of steps of an
//! update. Also the limits of everything else in sessions and calls, each with a name.
//!
//! Contracts see `Mappings` as a list of rules and a `Budget` as its number of steps. Every value of the two types is within the
//! limits, so no contract above needs to say it.
#![tactic(auto)]

mod budgets;
mod counts;
mod rules;

pub use crate::budgets::Budget;
pub use crate::counts::{
    MOST_ADDED_MAPPINGS, MOST_BYTES, MOST_CURATORS, MOST_MAPPINGS, MOST_RETRIES, MOST_STEPS,
    MOST_UPDATES,
};
pub use crate::rules::Mappings;

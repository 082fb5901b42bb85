//! What a step of an update did: the step is made, and its note is taken.
#![tactic(auto)]

mod made;
mod notes;
mod ways;
mod writes;

pub use crate::made::noted;
pub use crate::notes::{Note, Rewriting, Way};

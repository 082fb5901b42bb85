//! Tuples are inserted, deleted and replaced, each time by one update within its bounds.
#![tactic(auto)]

mod bounds;
mod deleting;
mod fitting;
mod inserting;
mod names;
mod replacing;
mod single;

pub use crate::deleting::delete;
pub use crate::inserting::insert;
pub use crate::replacing::{fill, replace};

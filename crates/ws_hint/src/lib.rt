//! Hints about tuples that are inserted: updates that wait with the same tuple, tuples that may be the same, keys that are
//! there already, and texts among numbers.
#![tactic(auto)]

mod hints;
mod kinds;
mod twins;
mod vague;
mod waits;

pub use crate::hints::{Hints, known_fact};

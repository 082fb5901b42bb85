//! The first violation of a mapping in a set of tuples: among all, or among those that an update's own writes caused.
#![tactic(auto)]

mod caused;
mod first;
mod remembered;
mod scope;
mod settled;
mod unmet;

pub use crate::first::{first_image, first_violation, holds};
pub use crate::scope::Scope;
pub use chase_match::Matched;

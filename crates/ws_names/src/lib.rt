//! The name of each null that stands, and the place that each cause has in its update.
#![tactic(auto)]

mod causes;
mod firsts;
mod names;
mod places;

pub use crate::causes::{Cause, is_same_question};
pub use crate::names::{Names, Pair};
pub use crate::places::{Place, Places, give};

//! The workspace in memory: the state by numbers, with the names that people use.
//!
//! `Space` is opened from the texts of a file, takes one line after the other, and returns what is there in the words of
//! commands. Tuples of `base_types` have two forms: *within*, as in the state, and *by names*, as in questions and effects. After
//! want of memory in a call that takes a line, a space is of no use.
#![tactic(auto)]

mod changed;
mod copies;
mod declaring;
mod finding;
mod folding;
mod heads;
mod lines;
mod looking;
mod losing;
mod naming;
mod opening;
mod points;
mod rules;
mod saying;
mod sources;
mod spaces;
mod speaking;
mod spelling;
mod statuses;
mod texts;
mod violating;
mod waits;

pub use crate::copies::{copy_fact, copy_value, plain_fact};
pub use crate::folding::variable_said;
pub use crate::lines::apart;
pub use crate::naming::{has_unknown, is_unknown, null_of, unknown_of};
pub use crate::opening::Opening;
pub use crate::points::Point;
pub use crate::spaces::{Recorded, Space};
pub use crate::speaking::speaks_of;
pub use crate::statuses::Statuses;
pub use crate::violating::Violation;

//! Sets of tuples: a plain ordered set, a set seen through writes that are not made, and a set with an index on each
//! column. All are `Facts`, and mean the list of their tuples in order.
#![tactic(auto)]

mod changed;
mod columns;
mod course;
mod group;
mod indexed;
mod listed;
mod merging;
mod mixing;
mod nulls;
mod overlay;
mod plain;
mod relations;
mod rising;
mod runs;
mod scanned;

pub use crate::course::{Course, Hides, least, remaining};
pub use crate::indexed::IndexedFacts;
pub use crate::merging::Merging;
pub use crate::overlay::Overlay;
pub use crate::plain::PlainFacts;
pub use crate::rising::RisingFacts;
pub use crate::runs::Run;

//! Sessions that are drawn from a seed.
//!
//! `specs/Drilled.antt` says which session is made of the draws. Each is a session that the grammar accepts, over an empty base.
#![tactic(auto)]

mod counting;
mod draws;
mod drills;
mod laws;
mod summaries;
mod totals;
mod tuples;
mod updates;
mod worked;

pub use crate::counting::Count;
pub use crate::draws::draw;
pub use crate::drills::drill;
pub use crate::laws::{drills_are_sessions, first_draws};
pub use crate::summaries::summary_text;
pub use crate::worked::worked_summary;

//! A desk: tickets for the steps of a core, given out inside a lock with turns.
#![tactic(auto)]

mod bench;
mod board;
mod cores;
mod desk;
mod laws;
mod stretches;
mod tickets;

pub use crate::board::{Board, Marked, Over, Told};
pub use crate::cores::Core;
pub use crate::desk::Desk;
pub use crate::laws::closed_desks_are_at_rest;
pub use crate::tickets::{Finished, Next, Stretch, Ticket};

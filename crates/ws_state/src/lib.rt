//! The state that a workspace's log stands for, built line by line.
//!
//! `State` takes one line after the other and reports what changed. The clauses of its methods say what a line keeps, and what
//! can be taken back. That the state is what `def_workspace` says of the lines is tested, not proved. After an `Err`, which
//! means want of memory, the state is of no use and has to be opened again.
#![tactic(auto)]

mod active;
mod compared;
mod counted;
mod effects;
mod folding;
mod heads;
mod latest;
mod made;
mod opening;
mod outcomes;
mod parts;
mod points;
mod replays;
mod running;
mod states;
mod turns;
mod visible;
mod ways;
mod worlds;

pub use crate::effects::{Effect, Filled, FilledList, Moved, MovedList};
pub use crate::heads::{Head, HeadWaiting, HeadWaitingList};
pub use crate::opening::OpenFault;
pub use crate::points::{Point, runs_add_up};
pub use crate::replays::{Again, AgainList, Replayed};
pub use crate::states::{Held, HeldList, Mark, State, Told};
pub use crate::worlds::{Standing, StandingList, Status, Waiting, WaitingList};

//! A lock with turns, over a value whose history only grows.
//!
//! `new` puts a value under a lock and deals seats, one for each thread. A thread opens a turn with its seat, has the value for
//! itself, may add entries to its history, and closes the turn. What a seat has seen is always a prefix of the history, and only
//! the seat itself adds entries of its own. `README.md`, beside this folder, has the promise, the atomic steps and the rule that
//! they keep.
#![tactic(auto)]

mod crossing;
mod dealing;
mod history;
mod lock;
mod pause;
mod plays;
mod seat;
mod view;

pub use crate::dealing::new;
pub use crate::history::Grows;
pub use crate::lock::StampLock;
pub use crate::seat::{Seat, Turn};
pub use crate::view::{Stage, View};
pub use def_record::Made;

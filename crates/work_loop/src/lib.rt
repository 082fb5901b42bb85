//! The loop of a worker over any bench, and the gates that can hold it.
//!
//! A bench hands out tickets. A worker, with a seat of its own, takes a ticket, makes its plan without the bench, and hands the
//! plan in. `Bench` says what a bench promises, and `work` is the loop of one worker. A `Gate` is passed before and after each
//! ticket's work, and `Places` limit how many workers are active at the same time.
#![tactic(auto)]

mod bench;
mod crews;
mod gates;
mod pace;
mod places;
mod rest;
mod watch;
mod worker;
mod workers;

pub use crate::bench::{Bench, Offer, Received};
pub use crate::crews::work_all;
pub use crate::gates::{Gate, OpenGate};
pub use crate::places::Places;
pub use crate::watch::Watch;
pub use crate::worker::work;
pub use crate::workers::Worker;

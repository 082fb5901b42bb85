//! `load`: the rows of a file of comma-separated values, each an update of its own.
//!
//! `ws_cells` reads the file and finds what is wrong with its rows. This crate turns the rows into the lines of one record, and
//! makes the reply that says what they did.
#![tactic(auto)]

mod adding;
mod alike;
mod faults;
mod known;
mod loading;
mod rows;
mod standing;
mod telling;

pub use crate::loading::{Input, Rows, load, read};

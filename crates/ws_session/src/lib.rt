//! A session over a workspace's file, and what the program `yt` does with it. Each command reads what is new in the file, is done
//! over the workspace in memory, and appends one record before its reply is given.
//!
//! `Session::command` returns the reply to a line. A reply to a change is given only after its record is acknowledged; a refused
//! change leaves the file as it was. If the disk fails, the record may be there or not. Only a function that is given the log in
//! hand can write to it, and hands it back with the reply; a fault drops it.
//!
//! A session keeps what it has read, so that a command costs only what is new. What was only tried in memory is taken back; if that
//! is not possible, the file is read again.
#![tactic(auto)]

mod accepting;
mod changing;
mod commands;
mod failing;
mod folding;
mod kinds;
mod leaving;
mod loading;
mod looking;
mod making;
mod opening;
mod sending;
mod sessions;
mod shell;

pub use crate::shell::run;

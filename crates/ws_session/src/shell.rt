//! What the program `yt` does with the words of its process, its environment and its streams.
//!
//! The words give the file, who speaks, and one command; without a command, each line of standard input is a command. The status
//! is that of the command. A script has the first status that stops it, or would stop it without `--keep-going`. If there is
//! none, it is `Waits` if a change waited and an update still waits, else `Done`.

mod feeding;
mod running;
mod scripts;
mod telling;
mod words;

pub use crate::shell::running::run;

//! Makes a database of SQLite in a file. The kit's `sqlite` runs a script of SQL in a new file beside it, which then takes the
//! file's name in one step.
//!
//! The finished database has no log beside it, and needs none to be read.
#![tactic(auto)]

mod filling;
mod making;

pub use crate::filling::run_script;
pub use crate::making::write_database;

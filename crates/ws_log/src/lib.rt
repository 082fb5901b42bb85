//! The log of a workspace in its file: it is opened, created, appended to, folded, and read on by a process that stays.
//!
//! A call that changes the file holds the exclusive lock; a call that reads it holds a shared one, and writes nothing. What is
//! acknowledged lasts. After a system call fails, the process gives the file up.
#![tactic(auto)]

mod faults;
mod logs;
mod making;
mod opening;

pub use crate::faults::{Fault, reason};
pub use crate::logs::{OpenLog, RestingLog};
pub use crate::making::{create, fold};
pub use crate::opening::{Opened, Reopened, open, reopen};
pub use ws_file::Access;
pub use ws_seal::Damage;

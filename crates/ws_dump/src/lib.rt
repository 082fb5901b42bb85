//! `dump`: what stands in a workspace, as a session for `youtopia serial`.
//!
//! The last updates that stand become updates of the session, one for each op; what stood before them is its base. Comments after
//! the first line say what the session cannot say.
#![tactic(auto)]

mod base;
mod comments;
mod cutting;
mod dumping;
mod hidden;
mod mappings;
mod renaming;
mod updates;

pub use crate::dumping::dump;

//! The versions of a repository: a base, and for each written tuple which updates put it in or took it out. `README.md` has the
//! contract, and `specs/Standing.antt` defines the meaning of versions.
#![tactic(auto)]

mod below;
mod cells;
mod crossing;
mod edits;
mod handles;
mod indexes;
mod laws;
mod marks;
mod nulls;
mod passing;
mod ranks;
mod reading;
mod scans;
mod searches;
mod spots;
mod spreads;
mod sweeps;
mod tables;
mod taken;
mod versions;

pub use crate::below::Below;
pub use crate::laws::{below_is_seen, seen_is_applied};
pub use crate::sweeps::Sweep;
pub use crate::versions::Versions;

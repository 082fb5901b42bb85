//! Persistent ordered maps and sets: another handle costs nothing, and keeps its entries whatever is done to the first.
#![tactic(auto)]

mod balancing;
pub mod bounds;
mod branch;
mod crossing;
pub mod cursors;
pub mod cuts;
mod edits;
pub mod few;
pub mod maps;
pub mod searches;
pub mod sets;
mod shares;

pub use crate::cursors::Cursor;
pub use crate::cuts::{Above, AtLeast, Cut, Start};
pub use crate::few::Few;
pub use crate::maps::TreeMap;
pub use crate::searches::{Search, Show, Sought};
pub use crate::sets::TreeSet;
pub use crate::shares::Share;

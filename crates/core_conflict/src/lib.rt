//! Whether the reads that an attempt has logged still have their values over what lies below it now.
//!
//! Between two moments writes came or went below the attempt. By the law `unmet_values_stay`, a read that none of these writes
//! meets keeps its value. Only the other reads are evaluated again.
#![tactic(auto)]

mod changes;
mod concerns;
mod footprints;
mod impacts;
mod joins;
mod laws;
mod signatures;
mod views;

pub use crate::changes::{Changed, first_changed};
pub use crate::concerns::{Reader, Sense, Trail};
pub use crate::footprints::Footprint;
pub use crate::impacts::Impact;
pub use crate::laws::{tuples_concern_queries, unmet_values_stay};

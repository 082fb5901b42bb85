//! Relations and mappings are declared; mappings are put in force after repairs, and dropped.
#![tactic(auto)]

mod adopting;
mod cycles;
mod declaring;
mod dropping;
mod forcing;
mod lints;
mod mappings;
mod relations;
mod repairs;
mod speaking;

pub use crate::adopting::adopt;
pub use crate::declaring::declare_mapping;
pub use crate::dropping::drop_mapping;
pub use crate::relations::declare_relation;

//! More specific tuples, and the unifier of a tuple and a more specific one: the laws of `def_chase` as calls over
//! any set of tuples.
//!
//! A tuple is more specific than another if its values are those of the other with nulls replaced: each null by one value
//! wherever it stands, and each constant by itself. The meaning of a substitution `sub` on values is `moved_by (images_of sub)`
//! of `base_types`.
//!
//! No call changes its arguments.
#![tactic(auto)]

mod applying;
mod columns;
mod finding;
mod nulls;
mod specific;
mod unifying;

pub use crate::applying::{apply, apply_row};
pub use crate::finding::candidates;
pub use crate::specific::{is_more_specific, specific_by};
pub use crate::unifying::unifier;

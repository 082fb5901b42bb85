//! What the update of a workspace runs over: tuples with the names of their nulls, and a trail to take writes back. The hidden
//! relations and mappings, which draw new unknowns and make repairs, are here too.
#![tactic(auto)]

mod grounds;
mod hidden;
mod since;
mod touched;

pub use crate::grounds::{Ground, Mark};
pub use crate::hidden::{
    FIX, UNKNOWN, WANT, drawing_mapping, fixing_mapping, found_as, news_of, shared_variables,
    to_fix, wanted,
};
pub use crate::since::image_for;
pub use crate::touched::{Touch, Touched};

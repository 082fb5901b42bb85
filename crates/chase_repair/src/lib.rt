//! The repair of one violation of a mapping: the rows Generate and Asked of the chase's steps, as a value that asks
//! queries and questions and takes their answers.
//!
//! Contracts see the state of a `Repair` as a `Repairing` of `specs/Repairs.antt`: `phase_of` is its phase, and `tree_in` is what
//! the step under way still asks and does. Each call that goes on says by `stand` what the step has come to, and that the
//! definition of the step gives the same (`settled`). `ms` is `mappings.now`. A step that ends adds its writes to the end of
//! those that the attempt has made, which the caller hands in as `own`.
//!
//! On `Err`, everything is unchanged.
#![tactic(auto)]

mod answering;
mod answers;
mod boxing;
mod choosing;
mod comparing;
mod copying;
mod fresh;
mod generating;
mod in_hand;
mod looking;
mod nulls;
mod ordering;
mod planning;
mod repairs;
mod rewriting;
mod stages;
mod unifying;
mod wants;
mod writes;

pub use crate::boxing::boxed;
pub use crate::fresh::{Fresh, existential};
pub use crate::in_hand::{Bound, image};
pub use crate::nulls::nulls_in;
pub use crate::ordering::in_order;
pub use crate::repairs::Repair;
pub use crate::rewriting::rewrite;
pub use crate::wants::{Progress, RepairWant};
pub use crate::writes::append;

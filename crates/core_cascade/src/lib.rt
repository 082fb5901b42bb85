//! Why each update above the one of an event is restarted: a conflict with its writes, or a dependence on what is lost.
//!
//! One walk upwards finds all the causes, as `settle` of `def_machine` does. Its law `WalkLaw` says which updates conflict,
//! which join the cascade, and which are restarted. `specs/Causes.antt` has the two contracts.
#![tactic(auto)]

mod cascades;
mod causes;
mod laws;
mod lost;
mod reads;

pub use crate::cascades::Cascade;
pub use crate::laws::trails_are_held;

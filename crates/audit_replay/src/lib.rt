//! A history replayed event by event, over plain sets.
//!
//! A `Replay` has the updates of a history with their present attempts. For each event it decides whether the event is allowed,
//! and computes its entry. `specs/Replays.antt` says what a replay means, by the definitions of legal histories. With a core it
//! shares the types of entries and the step of an update (`chase_plan` and what is below it), and no other code.
#![tactic(auto)]

mod answering;
mod cascades;
mod causes;
mod changes;
mod conflicts;
mod events;
mod levels;
mod losses;
mod opening;
mod places;
mod relations;
mod replays;
mod restarts;
mod stepping;
mod withdrawing;

pub use crate::events::Event;
pub use crate::levels::Levels;
pub use crate::replays::Replay;

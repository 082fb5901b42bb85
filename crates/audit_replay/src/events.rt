//! The events of a history.

use base_types::Choice;

/// An event: the next update handed in is admitted, the update with this number makes a step, its first recorded answer is
/// delivered, a person answers its question, or it is withdrawn.
#[derive(Debug, Drop)]
pub enum Event {
    Admits,
    Steps(u32),
    Delivers(u32),
    Answers(u32, Choice),
    Withdraws(u32),
}

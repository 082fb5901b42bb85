//! The status of an update.

use std::alloc::Global;
use ws_fault::{Fault, Refusal, Status as Code};
use ws_space::Space;
use ws_state::Status;

/// The status of the update with this number. It is refused if there is none.
pub fn status_of(alloc: Global, space: &Space, number: u32) -> Result<Status, Refusal> {
    if let Some(status) = space.state.status(number) {
        return Ok(status);
    }
    let mut fault = Fault {
        status: Code::Refused,
        words: format!(in alloc; "there is no update {number}")?,
        place: None,
        hint: None,
        more: Vec::new(alloc),
    };
    if number <= space.folded {
        fault.words = format!(in alloc; "update {number} is from before the last fold")?;
        fault.hint = Some(String::from_str(alloc, "what was folded stays")?);
    } else {
        let last = space.state.last();
        fault.hint = Some(format!(in alloc; "the last is {last}")?);
    }
    Err(Refusal::Fault(fault))
}

/// The word for a status.
pub fn status_word(status: Status) -> &'static str {
    match status {
        Status::Stands => "stands",
        Status::Waits => "waits",
        Status::Undone => "undone",
        Status::GivenUp => "given up",
    }
}

//! Faults of changes.

use std::alloc::{AllocError, Global};
use ws_fault::{Fault, Refusal, Status};

/// A fault of this status. An empty hint means that there is none.
fn fault(alloc: Global, status: Status, words: &str, hint: &str) -> Result<Fault, AllocError> {
    let hint = if hint.is_empty() {
        None
    } else {
        Some(String::from_str(alloc, hint)?)
    };
    Ok(Fault {
        status,
        words: String::from_str(alloc, words)?,
        place: None,
        hint,
        more: Vec::new(alloc),
    })
}

/// The fault that the change does not fit what is there. An empty hint means that there is none.
pub(crate) fn refused(alloc: Global, words: &str, hint: &str) -> Result<Fault, AllocError> {
    fault(alloc, Status::Refused, words, hint)
}

/// The fault that the steps did not suffice. An empty hint means that there is none.
pub fn spent(alloc: Global, words: &str, hint: &str) -> Result<Fault, AllocError> {
    fault(alloc, Status::Spent, words, hint)
}

/// Refuses a change that does not fit what is there. An empty hint means that there is none.
pub fn refuse<T: Drop>(alloc: Global, words: &str, hint: &str) -> Result<T, Refusal> {
    Err(Refusal::Fault(refused(alloc, words, hint)?))
}

/// Refuses a change that does not fit what is there, with words and a hint that were made for it. An empty hint means that there
/// is none.
pub fn refuse_made<T: Drop>(
    alloc: Global,
    words: Result<String, AllocError>,
    hint: Result<String, AllocError>,
) -> Result<T, Refusal> {
    let words = words?;
    let hint = hint?;
    refuse(alloc, words.as_str(), hint.as_str())
}

/// Refuses a change that does not fit what is there, with further faults.
pub fn refuse_with<T: Drop>(
    alloc: Global,
    words: &str,
    hint: &str,
    more: Vec<String>,
) -> Result<T, Refusal> {
    let mut fault = refused(alloc, words, hint)?;
    fault.more = more;
    Err(Refusal::Fault(fault))
}

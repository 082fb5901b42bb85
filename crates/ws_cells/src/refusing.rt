//! Faults of a load.

use std::alloc::{AllocError, Global};
use ws_fault::{Fault, Nearest, Refusal, Status};
use ws_print::{Text, add_escaped};

/// Refuses with a fault that has no place.
pub(crate) fn fault<T>(
    alloc: Global,
    status: Status,
    words: String,
    hint: Option<String>,
) -> Result<T, Refusal> {
    Err(Refusal::Fault(Fault {
        status,
        words,
        place: None,
        hint,
        more: Vec::new(alloc),
    }))
}

/// Refuses with a fault that has further ones.
pub(crate) fn faults<T>(
    words: String,
    hint: Option<String>,
    more: Vec<String>,
) -> Result<T, Refusal> {
    Err(Refusal::Fault(Fault {
        status: Status::Refused,
        words,
        place: None,
        hint,
        more,
    }))
}

/// A question whether one of the names was meant, if one is near.
pub(crate) fn meant_of(
    alloc: Global,
    word: &str,
    names: &[String],
) -> Result<Option<String>, AllocError> {
    let mut nearest = Nearest::to(alloc, word)?;
    for name in names {
        nearest.consider(name.as_str())?;
    }
    nearest.question()
}

/// The names between commas, with control characters escaped.
pub(crate) fn add_names(out: &mut Text, names: &[String]) {
    for (place, name) in names.iter().enumerate() {
        out.push_str(if 0 < place { ", " } else { "" });
        add_escaped(out, name.as_str());
    }
}

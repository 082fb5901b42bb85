//! The tuple within that a row stands for, if the row names nothing new.

use base_types::{Memory, Tuple};
use std::alloc::Global;
use ws_hint::known_fact;
use ws_space::Space;
use ws_written::{Fact, NewFact, Unknown, Value};

/// What a row stands for, given what is there.
#[derive(Drop)]
pub(crate) enum Row {
    /// It has a new unknown.
    New,
    /// It names an unknown that is not there any more.
    Lost(Unknown),
    /// It is this tuple within.
    Within(Tuple),
}

/// What the row stands for, given what is there now.
pub(crate) fn row_of(alloc: Global, space: &Space, fact: &NewFact) -> Result<Row, Memory> {
    let Some(known) = known_fact(alloc, fact)? else {
        return Ok(Row::New);
    };
    if let Some(unknown) = lost_unknown(space, &known) {
        return Ok(Row::Lost(unknown));
    }
    match space.within(alloc, &known)? {
        Some(tuple) => Ok(Row::Within(tuple)),
        None => Ok(Row::New),
    }
}

// The first unknown of the tuple that is not there.
fn lost_unknown(space: &Space, fact: &Fact) -> Option<Unknown> {
    for value in fact.values.iter() {
        if let Value::Unknown(unknown) = value {
            if space.within_unknown(*unknown).is_none() {
                return Some(*unknown);
            }
        }
    }
    None
}

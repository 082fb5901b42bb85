//! Why an update waits, in words.

use crate::texts::{count_text, unknown_text};
use base_types::{Memory, Null};
use std::alloc::Global;
use ws_run::Reason;
use ws_space::Space;

/// The reason why an update waits, in words; None if nothing is in its way.
pub fn reason_words(
    alloc: Global,
    space: &Space,
    reason: Option<&Reason>,
) -> Result<String, Memory> {
    let Some(reason) = reason else {
        let words = "nothing is in its way: answer it with go";
        return Ok(String::from_str(alloc, words)?);
    };
    match reason {
        Reason::Asks(_) => Ok(String::from_str(alloc, "it asks")?),
        Reason::NotThere(name) => lost_words(alloc, *name),
        Reason::TooLong(_) => Ok(String::from_str(alloc, "its steps do not suffice")?),
        Reason::Violated(mapping) => violated_words(alloc, space, *mapping),
        Reason::Gone(mapping) => {
            let name = space.mapping_name(*mapping);
            Ok(format!(in alloc; "mapping {name} is gone")?)
        }
    }
}

fn violated_words(alloc: Global, space: &Space, mapping: u16) -> Result<String, Memory> {
    let name = space.mapping_name(mapping);
    let count = space.count_violations(alloc, mapping)?;
    let count = count_text(alloc, count, "violation")?;
    Ok(format!(in alloc; "{name} has {count}")?)
}

/// The words for an unknown that is not there.
pub fn lost_words(alloc: Global, name: Null) -> Result<String, Memory> {
    let name = unknown_text(alloc, name)?;
    Ok(format!(in alloc; "{name} is not there")?)
}

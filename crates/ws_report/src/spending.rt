//! Updates whose steps do not suffice.

use def_memory::Memory;
use std::alloc::Global;
use ws_fault::{Fault, Refusal, Status};
use ws_print::Text;
use ws_question::count_text;
use ws_run::MadeList;
use ws_space::Space;

const MORE: &str = "more steps: --steps N, or ask whether the mappings go round for ever";

/// The refusal of an update for which `steps` steps did not suffice. It says how many tuples each mapping made in them.
pub fn spent_fault(
    alloc: Global,
    space: &Space,
    steps: u32,
    made: &MadeList,
) -> Result<Refusal, Memory> {
    let mut hint = Text::new(alloc);
    for (name, tuples) in counts_of(alloc, space, made)?.iter() {
        hint.push_str(if hint.is_empty() { "" } else { ", " });
        hint.made(count_words(alloc, name.as_str(), *tuples));
    }
    hint.push_str(if hint.is_empty() { "" } else { "; " });
    hint.push_str(MORE);
    let hint = hint.done()?;
    Ok(Refusal::Fault(Fault {
        status: Status::Spent,
        words: format!(in alloc; "spent: {steps} steps did not suffice; nothing was changed")?,
        place: None,
        hint: Some(hint),
        more: Vec::new(alloc),
    }))
}

// The names of the mappings that made something, each with the number of tuples that it made.
fn counts_of(alloc: Global, space: &Space, made: &MadeList) -> Result<Vec<(String, u32)>, Memory> {
    let mut counts = Vec::new(alloc);
    for one in made.as_slice() {
        if 0 < one.tuples {
            counts.push((space.source_name(alloc, one.source)?, one.tuples))?;
        }
    }
    counts.sort()?;
    Ok(counts)
}

// `NAME made N tuples`; a repair has the name of its mapping.
fn count_words(alloc: Global, name: &str, tuples: u32) -> Result<String, Memory> {
    let name = name.strip_prefix("_fix_").unwrap_or(name);
    let tuples = count_text(alloc, tuples as usize, "tuple")?;
    Ok(format!(in alloc; "{name} made {tuples}")?)
}

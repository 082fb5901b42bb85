//! What a run made, by source.

use crate::states::put;
use base_types::Memory;
use std::alloc::Global;
use ws_lines::Source;
use ws_run::{Made, MadeList, StepList};

/// For each source that generated tuples, the number of tuples that the steps put because of it.
pub(crate) fn made_of(alloc: Global, steps: &StepList) -> Result<MadeList, Memory> {
    let mut made = MadeList::new(alloc);
    for step in steps.as_slice() {
        if let Some(source) = step.source {
            let tuples = u32::try_from(step.note.puts.len()).unwrap_or(u32::MAX);
            add(&mut made, source, tuples)?;
        }
    }
    Ok(made)
}

// Adds to the count of the source.
fn add(made: &mut MadeList, source: Source, tuples: u32) -> Result<(), Memory> {
    match place_of(made, source) {
        Some((place, before)) => {
            let tuples = before.saturating_add(tuples);
            put(made, place, Made { source, tuples });
        }
        None => made.push(Made { source, tuples })?,
    }
    Ok(())
}

// The place of the source in the list, with its count so far.
fn place_of(made: &MadeList, source: Source) -> Option<(usize, u32)> {
    let place = made.as_slice().iter().position(|one| one.source == source)?;
    let one = made.get(place)?;
    Some((place, one.tuples))
}

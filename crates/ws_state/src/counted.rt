//! Which lines counted before a replay.

use crate::points::shorten;
use crate::states::{Event, Held, HeldList};
use base_types::{Memory, TryCopy};
use std::alloc::Global;
use ws_lines::GivenList;

/// Which lines counted: what was held of each update, and whether the answer of each line was taken back.
#[derive(Drop)]
pub(crate) struct Counted {
    held: Vec<HeldBefore>,
    forgotten: Vec<bool>,
}

// What was held of an update: whether it was undone, the number of its places, and its answers of the last fold.
#[derive(Drop)]
struct HeldBefore {
    is_undone: bool,
    places: usize,
    first: Option<GivenList>,
}

/// Keeps which lines count now, unless something is kept already.
pub(crate) fn keep_counted(
    alloc: Global,
    counted: &mut Option<Counted>,
    held: &HeldList,
    events: &Vec<Event>,
) -> Result<(), Memory> {
    if counted.is_none() {
        let now = Counted {
            held: held_now(alloc, held)?,
            forgotten: forgotten_now(alloc, events)?,
        };
        *counted = Some(now);
    }
    Ok(())
}

fn held_now(alloc: Global, held: &HeldList) -> Result<Vec<HeldBefore>, Memory> {
    let mut all = Vec::new(alloc);
    for held in held {
        all.push(HeldBefore {
            is_undone: held.is_undone,
            places: held.places.len(),
            first: held.first.copy(alloc)?,
        })?;
    }
    Ok(all)
}

fn forgotten_now(alloc: Global, events: &Vec<Event>) -> Result<Vec<bool>, Memory> {
    let mut all = Vec::new(alloc);
    for event in events {
        all.push(event.is_forgotten)?;
    }
    Ok(all)
}

/// Lets the lines count that counted, if they were kept. Lines that were said after that stay as they are.
pub(crate) fn count_again(
    alloc: Global,
    held: &mut HeldList,
    events: &mut Vec<Event>,
    counted: Option<Counted>,
) {
    let Some(
        Counted {
            held: before,
            forgotten,
        },
    ) = counted
    else {
        return;
    };
    for (held, before) in held.iter_mut().zip(before) {
        hold_again(alloc, held, before);
    }
    for (event, is_forgotten) in events.iter_mut().zip(&forgotten) {
        event.is_forgotten = *is_forgotten;
    }
}

fn hold_again(alloc: Global, held: &mut Held, before: HeldBefore) {
    held.is_undone = before.is_undone;
    held.first = before.first;
    shorten(alloc, &mut held.places, before.places);
}

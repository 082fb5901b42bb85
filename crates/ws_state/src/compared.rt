//! What stood before a replay, compared with what stands after it.

use crate::visible::Visible;
use crate::worlds::{StandingList, Status};
use base_types::{Memory, Write, WriteList};
use std::alloc::Global;

// Updates that stand, and for each held update its place among them, if it stands.
#[derive(Drop)]
pub(crate) struct ByHeld<'a> {
    order: &'a StandingList,
    places: Vec<Option<usize>>,
}

// The updates in `order`; `count` is the number of held updates.
pub(crate) fn by_held(
    alloc: Global,
    order: &StandingList,
    count: usize,
) -> Result<ByHeld<'_>, Memory> {
    let mut places = Vec::new(alloc);
    for _ in 0..count {
        places.push(None)?;
    }
    for (place, standing) in order.as_slice().iter().enumerate() {
        if let Some(one) = places.get_mut(standing.held) {
            *one = Some(place);
        }
    }
    Ok(ByHeld { order, places })
}

impl<'a> ByHeld<'a> {
    // The writes of the update held at this place, if it stands.
    fn writes(&self, held: usize) -> Option<&'a WriteList> {
        let place = self.places.get(held).copied().unwrap_or(None)?;
        let standing = self.order.get(place)?;
        Some(&standing.writes)
    }
}

// What stood before a replay.
#[derive(Drop)]
pub(crate) struct Before {
    pub statuses: Vec<Status>,
    pub visible: Visible,
    pub order: StandingList,
}

// The status at this place.
pub(crate) fn status_in(statuses: &[Status], place: usize) -> Status {
    statuses.get(place).copied().unwrap_or(Status::GivenUp)
}

// Whether the update held at this place wrote the same before and after.
pub(crate) fn same_writes(was: &ByHeld<'_>, is: &ByHeld<'_>, place: usize) -> bool {
    match (was.writes(place), is.writes(place)) {
        (Some(old), Some(new)) => same_list(old, new),
        (None, None) => true,
        _ => false,
    }
}

fn same_list(old: &WriteList, new: &WriteList) -> bool {
    if old.len() != new.len() {
        return false;
    }
    let mut pairs = old.as_slice().iter().zip(new.as_slice());
    pairs.all(|(old, new)| same_write(old, new))
}

fn same_write(old: &Write, new: &Write) -> bool {
    match (old, new) {
        (Write::Insert(s), Write::Insert(t)) => s == t,
        (Write::Delete(s), Write::Delete(t)) => s == t,
        _ => false,
    }
}

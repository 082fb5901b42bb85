//! What stands: the tuples, the mappings in force, the updates that stand in their order, and the updates that wait.
ghost use Rattle.std.specs.Prelude.{◌≡◌, IfOk};

use crate::states::put;
use base_types::{List, Memory, TryCopy, TupleList, WriteList};
use std::alloc::Global;
use std::mem;
use ws_lines::{Deed, GivenList};
use ws_run::{Ground, OpList, StepList};

/// The status of an update: it stands, it waits, it is undone, or it was given up.
#[derive(Clone, Copy, Debug, PartialEq, Eq)]
pub enum Status {
    Stands,
    Waits,
    Undone,
    GivenUp,
}

/// An update that stands, by its place among the held updates: the answers that it took, its ops and steps, the image that it
/// repairs for, if it is a repair, and its writes by names.
#[derive(Drop)]
pub struct Standing {
    pub held: usize,
    pub answers: GivenList,
    pub ops: OpList,
    pub steps: StepList,
    pub image: TupleList,
    pub writes: WriteList,
}

/// Updates that stand, in the order in which they came to stand.
pub type StandingList = List<Standing>;

/// An update that waits, by its place among the held updates, with the answers that it has.
#[derive(Drop)]
pub struct Waiting {
    pub held: usize,
    pub answers: GivenList,
}

impl TryCopy for Waiting {
    ghost use Rattle.std.specs.Prelude.{ℕ};

    ghost Meaning = { ℕ };

    ghost meaning = { λ w. w.held };

    fn copy(&self, alloc: Global) -> Result<Waiting, Memory>
        ensures same { IfOk result (λ copy. copy.held ≡ self.now.held) }
    {
        Ok(Waiting {
            held: self.held,
            answers: self.answers.copy(alloc)?,
        })
    }
}

/// Updates that wait, by number.
pub type WaitingList = List<Waiting>;

/// What stands.
#[derive(Drop)]
pub(crate) struct World {
    pub ground: Ground,
    pub in_force: List<u16>,
    pub gone: List<u16>,
    pub order: StandingList,
    pub waiting: WaitingList,
}

impl World {
    /// These tuples and mappings in force; no update stands or waits.
    pub fn new(alloc: Global, ground: Ground, in_force: List<u16>) -> World {
        World {
            ground,
            in_force,
            gone: List::new(alloc),
            order: StandingList::new(alloc),
            waiting: WaitingList::new(alloc),
        }
    }

    /// Whether the mapping is in force.
    pub fn is_in_force(&self, mapping: u16) -> bool {
        is_among(&self.in_force, mapping)
    }

    /// Whether the mapping is gone.
    pub fn is_gone(&self, mapping: u16) -> bool {
        is_among(&self.gone, mapping)
    }

    /// The place among the waiting updates of the one held at this place.
    pub fn waiting_place(&self, held: usize) -> Option<usize> {
        place_among(&self.waiting, held)
    }

    /// The answers of the update held at this place; None if it does not wait.
    pub fn answers_of(&self, alloc: Global, held: usize) -> Result<Option<GivenList>, Memory> {
        let mut waiting = self.waiting.as_slice().iter();
        match waiting.find(|waiting| waiting.held == held) {
            Some(waiting) => Ok(Some(waiting.answers.copy(alloc)?)),
            None => Ok(None),
        }
    }

    /// Lets the update wait with these answers: at its place if it waited already, else as the last.
    pub fn wait(&mut self, held: usize, answers: GivenList) -> Result<(), Memory> {
        wait_among(&mut self.waiting, held, answers)
    }
}

/// The mapping that the update speaks of, if it is in `gone`.
pub(crate) fn gone_of(gone: &List<u16>, deed: &Deed) -> Option<u16> {
    let mapping = match deed {
        Deed::Fix(mapping, _) => *mapping,
        Deed::Force(mapping) => *mapping,
        Deed::Drop(mapping) => *mapping,
        _ => return None,
    };
    if is_among(gone, mapping) {
        return Some(mapping);
    }
    None
}

/// Whether an update with this deed is given up if it waits, given the mappings in force and gone.
pub(crate) fn gives_up(in_force: &List<u16>, gone: &List<u16>, deed: &Deed) -> bool {
    match deed {
        Deed::Force(mapping) => is_among(gone, *mapping) || is_among(in_force, *mapping),
        _ => gone_of(gone, deed).is_some(),
    }
}

/// Puts a mapping in force, after the others, unless it is in force.
pub(crate) fn put_in_force(in_force: &mut List<u16>, mapping: u16) -> Result<(), Memory> {
    if !is_among(in_force, mapping) {
        in_force.push(mapping)?;
    }
    Ok(())
}

/// Takes a mapping away.
pub(crate) fn drop_mapping(
    alloc: Global,
    in_force: &mut List<u16>,
    gone: &mut List<u16>,
    mapping: u16,
) -> Result<(), Memory> {
    gone.push(mapping)?;
    let mut kept = mem::replace(in_force, List::new(alloc)).into_vec();
    kept.retain(|other| *other != mapping);
    *in_force = List::from_vec(kept);
    Ok(())
}

/// Lets the update wait in this list: at its place if it waited already, else as the last.
pub(crate) fn wait_among(
    list: &mut WaitingList,
    held: usize,
    answers: GivenList,
) -> Result<(), Memory> {
    let waiting = Waiting { held, answers };
    match place_among(list, held) {
        Some(place) => put(list, place, waiting),
        None => list.push(waiting)?,
    }
    Ok(())
}

/// Takes the update from the updates that wait.
pub(crate) fn wait_no_more(alloc: Global, list: &mut WaitingList, held: usize) {
    let mut kept = mem::replace(list, WaitingList::new(alloc)).into_vec();
    kept.retain(|waiting| waiting.held != held);
    *list = WaitingList::from_vec(kept);
}

// The place in this list of the update held at this place.
fn place_among(list: &WaitingList, held: usize) -> Option<usize> {
    let mut waiting = list.as_slice().iter();
    waiting.position(|waiting| waiting.held == held)
}

/// Puts the list in place of what was there.
pub(crate) fn renew<T: Drop>(list: &mut List<T>, new: List<T>) {
    drop(mem::replace(list, new));
}

fn is_among(numbers: &List<u16>, number: u16) -> bool {
    numbers.as_slice().iter().any(|other| *other == number)
}

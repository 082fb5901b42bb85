//! Opening a state from the head of its file.

use crate::heads::{Head, HeadWaiting, HeadWaitingList};
use crate::states::{Held, State, small};
use crate::worlds::World;
use base_types::{Facts, List, Memory, Null, TryCopy, Tuple, TupleList, Value, ValueList};
use set_facts::{IndexedFacts, PlainFacts};
use std::alloc::Global;
use std::collections::BTreeMap;
use ws_names::Names;
use ws_run::Ground;

/// Why a head cannot be opened: want of memory; a tuple has an unknown that the head does not list; an unknown is listed twice;
/// or an update waits under a number that is given twice, or that is above the greatest.
#[derive(Clone, Copy, Debug, PartialEq, Eq)]
pub enum OpenFault {
    Memory,
    NotListed(Null),
    ListedTwice(Null),
    NotGiven(u32),
}

impl From<Memory> for OpenFault {
    fn from(_memory: Memory) -> OpenFault {
        OpenFault::Memory
    }
}

impl<T: Drop> From<(T, Memory)> for OpenFault {
    fn from(_refused: (T, Memory)) -> OpenFault {
        OpenFault::Memory
    }
}

impl State {
    /// The state that the head stands for.
    pub fn of(alloc: Global, head: Head) -> Result<State, OpenFault> {
        match begun(alloc, &head) {
            Ok((world, first_in_force)) => State::over(alloc, head, world, first_in_force),
            Err(fault) => {
                drop(head);
                Err(fault)
            }
        }
    }

    // The state of the head, over what stands according to it.
    fn over(
        alloc: Global,
        head: Head,
        world: World,
        first_in_force: List<u16>,
    ) -> Result<State, OpenFault> {
        let mut state = State {
            tables: head.tables,
            mappings: head.mappings,
            held: Vec::new(alloc),
            places: BTreeMap::new(alloc),
            events: Vec::new(alloc),
            first_in_force,
            first_names: world.ground.names.len(),
            replays: 0,
            latest: None,
            redeclared: false,
            counted: None,
            last: head.last,
            world,
        };
        match state.hold(alloc, head.waits) {
            Ok(()) => Ok(state),
            Err(fault) => {
                drop(state);
                Err(fault)
            }
        }
    }

    // Holds the updates that wait, as waiting.
    fn hold(&mut self, alloc: Global, waits: HeadWaitingList) -> Result<(), OpenFault> {
        for waiting in waits.into_vec() {
            let number = waiting.update.number;
            self.hold_one(alloc, waiting)?;
            self.give_place(number)?;
        }
        Ok(())
    }

    // Gives the update that was held last this number, if no other has it and it is not above the greatest.
    fn give_place(&mut self, number: u32) -> Result<(), OpenFault> {
        if self.last < number {
            return Err(OpenFault::NotGiven(number));
        }
        match self
            .places
            .insert(number, self.held.len().saturating_sub(1))
        {
            Ok(None) => Ok(()),
            Ok(Some(_)) => Err(OpenFault::NotGiven(number)),
            Err(_) => Err(OpenFault::Memory),
        }
    }

    fn hold_one(&mut self, alloc: Global, waiting: HeadWaiting) -> Result<(), Memory> {
        match self.let_wait(alloc, &waiting) {
            Ok(()) => self.keep_held(waiting),
            Err(memory) => {
                drop(waiting);
                Err(memory)
            }
        }
    }

    // The update that is held next waits.
    fn let_wait(&mut self, alloc: Global, waiting: &HeadWaiting) -> Result<(), Memory> {
        let answers = waiting.answers.copy(alloc)?;
        self.world.wait(self.held.len(), answers)
    }

    fn keep_held(&mut self, waiting: HeadWaiting) -> Result<(), Memory> {
        let HeadWaiting {
            update,
            places,
            answers,
        } = waiting;
        self.held.push(Held {
            update,
            is_undone: false,
            places,
            first: Some(answers),
        })?;
        Ok(())
    }
}

// What stands according to the head, and the mappings that are in force then.
fn begun(alloc: Global, head: &Head) -> Result<(World, List<u16>), OpenFault> {
    let in_force = first_numbers(alloc, head.in_force)?;
    let world = world_of(alloc, head)?;
    Ok((world, in_force))
}

// What stands according to the head, without the updates that wait.
fn world_of(alloc: Global, head: &Head) -> Result<World, OpenFault> {
    let names = names_of(alloc, &head.unknowns)?;
    let facts = facts_of(alloc, &names, &head.base)?;
    let in_force = first_numbers(alloc, head.in_force)?;
    Ok(World::new(alloc, Ground::new(alloc, facts, names), in_force))
}

// The tuples with the nulls that their names stand for, as a set.
fn facts_of(alloc: Global, names: &Names, base: &TupleList) -> Result<IndexedFacts, OpenFault> {
    let tuples = inner_all(alloc, names, base)?;
    let facts = PlainFacts::of_list(alloc, &tuples)?;
    Ok(IndexedFacts::of(alloc, facts)?)
}

// The numbers from 0 on, `count` of them.
fn first_numbers(alloc: Global, count: usize) -> Result<List<u16>, Memory> {
    let mut numbers = List::new(alloc);
    for number in 0..small(count) {
        numbers.push(number)?;
    }
    Ok(numbers)
}

// The j-th unknown that is listed is the null of update 0 and place j.
fn names_of(alloc: Global, unknowns: &List<Null>) -> Result<Names, OpenFault> {
    let mut names = Names::new(alloc);
    let mut place: u32 = 0;
    for name in unknowns.as_slice() {
        place = place.checked_add(1).ok_or(OpenFault::Memory)?;
        if names.null_called(*name).is_some() {
            return Err(OpenFault::ListedTwice(*name));
        }
        let null = Null {
            update: 0,
            attempt: 0,
            place,
        };
        names.give(null, *name)?;
    }
    Ok(names)
}

fn inner_all(alloc: Global, names: &Names, tuples: &TupleList) -> Result<TupleList, OpenFault> {
    let mut all = TupleList::new(alloc);
    all.reserve(tuples.len())?;
    for tuple in tuples.as_slice() {
        all.push(inner(alloc, names, tuple)?)?;
    }
    Ok(all)
}

// The tuple with the nulls that its names stand for.
fn inner(alloc: Global, names: &Names, tuple: &Tuple) -> Result<Tuple, OpenFault> {
    let mut values = ValueList::new(alloc);
    for value in tuple.values.as_slice() {
        let value = match value {
            Value::Null(name) => match names.null_called(*name) {
                Some(null) => Value::Null(null),
                None => return Err(OpenFault::NotListed(*name)),
            },
            _ => value.copy(alloc)?,
        };
        values.push(value)?;
    }
    Ok(Tuple::new(alloc, tuple.relation, values)?)
}

//! The outcome of an update's run.
ghost use Rattle.std.specs.Prelude.{◌≡◌};

use crate::made::made_of;
use crate::turns::Turn;
use crate::worlds::Standing;
use base_types::{List, Memory, TryCopy, TupleList, WriteList};
use std::alloc::Global;
use ws_lines::GivenList;
use ws_names::Places;
use ws_run::{Halt, OpList, Reason, StepList, Thread};

/// The outcome of a run: done, with what it did, or left, with the reason.
#[derive(Drop)]
pub(crate) enum Ran {
    Done(Standing),
    Left(Reason),
}

impl Ran {
    /// The reason why the run is not done; None if it is done.
    pub fn reason(self) -> Option<Reason> {
        match self {
            Ran::Done(standing) => {
                drop(standing);
                None
            }
            Ran::Left(reason) => Some(reason),
        }
    }
}

/// A run with its outcome, the number of answers that it took, and the table of the update after it.
#[derive(Drop)]
pub(crate) struct Tried {
    pub ran: Ran,
    pub taken: usize,
    pub places: Places,
}

/// A run that did not begin, for this reason.
pub(crate) fn left(reason: Reason, places: Places) -> Tried {
    Tried {
        ran: Ran::Left(reason),
        taken: 0,
        places,
    }
}

/// A run without ops, which is done.
pub(crate) fn done_without_ops(alloc: Global, place: usize, places: Places) -> Tried {
    done_by(alloc, place, OpList::new(alloc), places)
}

/// A done run of these ops, which took no answer and wrote nothing.
pub(crate) fn done_by(alloc: Global, place: usize, ops: OpList, places: Places) -> Tried {
    Tried {
        ran: Ran::Done(Standing {
            held: place,
            answers: GivenList::new(alloc),
            ops,
            steps: StepList::new(alloc),
            image: TupleList::new(alloc),
            writes: WriteList::new(alloc),
        }),
        taken: 0,
        places,
    }
}

/// A done run, with what it kept.
pub(crate) fn done_with(
    alloc: Global,
    turn: Turn<'_>,
    thread: Thread,
    image: TupleList,
) -> Result<Tried, Memory> {
    let taken = thread.taken as usize;
    let answers = first_of(turn.answers.copy(alloc)?, taken);
    let Thread {
        places,
        steps,
        ops,
        writes,
        ..
    } = thread;
    Ok(Tried {
        ran: Ran::Done(Standing {
            held: turn.place,
            answers,
            ops: fitted(ops),
            steps: fitted(steps),
            image,
            writes: fitted(writes),
        }),
        taken,
        places,
    })
}

// The list without spare room.
fn fitted<T>(list: List<T>) -> List<T>
    ensures same { result.items ≡ list.items }
{
    let mut items = list.into_vec();
    items.shrink_to_fit();
    List::from_vec(items)
}

/// A halted run, with what it kept.
pub(crate) fn halted(alloc: Global, thread: Thread, halt: Halt) -> Result<Tried, Memory> {
    match halt {
        Halt::Left(reason) => left_with(alloc, thread, reason),
        Halt::Memory => {
            drop(thread);
            Err(Memory)
        }
    }
}

// A run that is not done, for this reason.
fn left_with(alloc: Global, thread: Thread, reason: Reason) -> Result<Tried, Memory> {
    let Thread {
        places,
        taken,
        steps,
        ..
    } = thread;
    match with_made(alloc, &steps, reason) {
        Ok(reason) => Ok(Tried {
            ran: Ran::Left(reason),
            taken: taken as usize,
            places,
        }),
        Err(memory) => {
            drop(places);
            Err(memory)
        }
    }
}

// The reason, with what the steps made if there were too many of them.
fn with_made(alloc: Global, steps: &StepList, reason: Reason) -> Result<Reason, Memory> {
    match reason {
        Reason::TooLong(made) => {
            drop(made);
            Ok(Reason::TooLong(made_of(alloc, steps)?))
        }
        Reason::Asks(question) => Ok(Reason::Asks(question)),
        Reason::NotThere(name) => Ok(Reason::NotThere(name)),
        Reason::Violated(mapping) => Ok(Reason::Violated(mapping)),
        Reason::Gone(mapping) => Ok(Reason::Gone(mapping)),
    }
}

/// The first `count` answers.
pub(crate) fn first_of(answers: GivenList, count: usize) -> GivenList {
    let mut answers = answers.into_vec();
    answers.truncate(count);
    GivenList::from_vec(answers)
}

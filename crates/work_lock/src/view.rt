// What a seat knows, and the rule of the lock's words and slot. These types exist in contracts alone.

use crate::history::Grows;
use atomic_table::TableRule;
use def_record::Made;
use std::collections::LinkedList;
use std::snapshot::Snapshot;

/// Where a seat is in its turn. Turns are numbered from 0, and in contracts their numbers never wrap.
pub enum Stage {
    /// The seat has no turn.
    Resting,
    /// The seat has taken the turn of this number, and has not yet found it served.
    Waiting(u64),
    /// The seat has found its turn, of this number, served, and has not yet passed it.
    Opened(u64),
    /// The seat was joined to the first, at the lock's end.
    Spent,
}

/// What a seat knows. No value of it is made.
pub struct View<E> {
    /// The seat's number.
    pub number: u64,
    /// The history that the seat has seen.
    pub seen: LinkedList<Made<E>>,
    /// Where the seat is in its turn.
    pub stage: Stage,
    /// Of the first seat, how many seats the lock has; of any other 0.
    pub dealt: u64,
    /// Of the first seat, what the seats that were joined to it had seen, in order of their numbers.
    pub joined: LinkedList<LinkedList<Made<E>>>,
}

/// The rule of a lock's table.
pub struct Turns;

impl<V: Grows> TableRule<Option<V>, View<V::Entry>, Snapshot<V>> for Turns {
    ghost use Rattle.work_lock.specs.Rule.{Kept, first_view};

    ghost holds = { λ _. Kept V.entries };

    ghost first = { λ k. first_view (V.entries k.value) };
}

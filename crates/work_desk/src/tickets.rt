//! Tickets, and what a desk answers to a seat that asks for one or hands one in.
ghost use Rattle.std.specs.Prelude.{◌≡◌};

/// A ticket for the next step of an update. It has to be spent by `Desk::finish` or `Desk::give_back`: it can neither be
/// dropped nor copied.
pub struct Ticket<S> {
    pub(crate) number: u64,
    pub(crate) update: u32,
    pub(crate) stamp: u64,
    pub(crate) snapshot: S,
}

impl<S> Ticket<S> {
    /// The ticket's number; a desk numbers its tickets from 1.
    pub fn number(&self) -> u64
        ensures { result ≡ self.now.number }
    {
        self.number
    }

    /// The update that the ticket is for.
    pub fn update(&self) -> u32
        ensures { result ≡ self.now.update }
    {
        self.update
    }

    /// The number of entries of the history when the ticket was given.
    pub fn stamp(&self) -> u64
        ensures { result ≡ self.now.stamp }
    {
        self.stamp
    }
}

/// What a desk answers to a seat that asks for work: the first of these that it can.
pub enum Next<T> {
    /// A ticket for the lowest ready update that is not in flight.
    Ticket(T),
    /// An answer was delivered to the lowest update that could have one.
    Delivered { update: u32 },
    /// There is nothing to do now, but a ticket is out; `in_flight` is the lowest update in flight.
    Idle { in_flight: u32 },
    /// Nothing is left to do.
    Quiet,
}

/// What became of a plan that was handed in.
#[derive(Drop)]
pub enum Finished {
    /// The step was made; `entry` is the number of its entry.
    Stepped { entry: u64 },
    /// The entry with the number `entry` makes the plan stale. No step was made.
    Stale { entry: u64 },
}

/// What came of a stretch: steps and deliveries that a seat made in one turn.
#[derive(Drop)]
pub struct Stretch {
    /// The number of moves that were made.
    pub made: u64,
    /// Whether more moves may follow: each move let the seat go on, and there was always one to make. It is a hint.
    pub more: bool,
}

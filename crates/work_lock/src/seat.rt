// A seat of a lock, and a turn that a seat has.
ghost use Rattle.std.specs.Prelude.{◌≡◌};

use crate::history::Grows;
use crate::view::View;
use std::snapshot::Snapshot;

/// A place at a lock, from which one thread at a time takes turns. It has a number, and it keeps, for contracts, the history that
/// it has seen.
pub struct Seat<V: Grows> {
    pub(crate) at: atomic_table::Seat<Option<V>, View<V::Entry>>,
    pub(crate) number: u64,
}

impl<V: Grows> Seat<V> {
    ghost use Rattle.work_lock.specs.Seats.{number_of};

    /// The seat's number at its lock, from 0.
    pub fn number(&self) -> u64
        ensures { result ≡ number_of self.now }
    {
        self.number
    }

    pub(crate) fn into_inner(self) -> atomic_table::Seat<Option<V>, View<V::Entry>>
        ensures { result ≡ self.at }
    {
        let Seat { at, number: _ } = self;
        at
    }
}

// By hand, since a derive would ask that V is Drop.
impl<V: Grows> Drop for Seat<V> {
    fn drop(self) {
        let Self { at: _, number: _ } = self;
    }
}

/// A turn that a seat has opened. It has to be spent by `StampLock::close_turn`: it can neither be dropped nor copied.
pub struct Turn<V: Grows> {
    pub(crate) length: u64,
    pub(crate) opened: Snapshot<atomic_table::Seat<Option<V>, View<V::Entry>>>,
}

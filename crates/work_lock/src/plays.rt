// What each atomic step tells the seat that makes it.
ghost use Rattle.work_lock.specs.Steps.{takes, looks, counts, passes, dealer, dealt, both_of, spent_view};

use crate::history::Grows;
use crate::view::View;
use atomic_table::{Join, Play, Split};

// The seat takes a turn number.
pub(crate) struct Take;

impl<V: Grows> Play<Option<V>, View<V::Entry>> for Take {
    ghost then = { takes };
}

// The seat looks at the number that is served. If it is its own, it takes the slot.
pub(crate) struct Look;

impl<V: Grows> Play<Option<V>, View<V::Entry>> for Look {
    ghost then = { looks V.entries };
}

// The seat counts the history of the value that it is about to put back.
pub(crate) struct Count;

impl<V: Grows> Play<Option<V>, View<V::Entry>> for Count {
    ghost then = { counts V.entries };
}

// The seat passes its turn, and gives the slot back.
pub(crate) struct Pass;

impl<V: Grows> Play<Option<V>, View<V::Entry>> for Pass {
    ghost then = { passes };
}

// A new seat is split off the first.
pub(crate) struct Deal;

impl<E> Split<View<E>> for Deal {
    ghost left = { dealer };

    ghost right = { dealt };
}

// A seat is joined to the first.
pub(crate) struct Gather;

impl<E> Join<View<E>> for Gather {
    ghost both = { both_of };

    ghost spent = { spent_view };
}

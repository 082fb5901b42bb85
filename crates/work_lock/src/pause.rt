// How a seat passes the time between two looks.

use std::time::Duration;
use std::{hint, thread};

// How many times the next seat in line looks in vain before it yields the processor.
const LOOKS: u32 = 32;

// How many times a seat yields the processor before it sleeps.
const YIELDS: u32 = 4;

// The longest sleep. A pass of the turn wakes the seat earlier, so this only bounds the cost of a late wake.
const NAP_MILLIS: u64 = 4;

// A wait for a turn: what may still be done before the seat sleeps, and which turn was served when it last fell asleep.
#[derive(Drop)]
pub(crate) struct Pause {
    looks: u32,
    yields: u32,
    slept_at: Option<u64>,
}

impl Pause {
    pub(crate) fn new() -> Pause {
        Pause {
            looks: LOOKS,
            yields: YIELDS,
            slept_at: None,
        }
    }

    // Lets a moment go by, if the seat may still look again without a sleep. The next seat in line first spins a short while, to
    // catch the end of the turn before its own.
    pub(crate) fn lets_look(&mut self, ahead: u64) -> bool {
        if ahead == 1 && self.looks > 0 {
            self.looks -= 1;
            hint::spin_loop();
            return true;
        }
        if self.yields > 0 {
            self.yields -= 1;
            thread::yield_now();
            return true;
        }
        false
    }

    // Notes that the seat falls asleep while this turn is served. True if it last fell asleep at another turn: the wake since
    // then was for another seat.
    pub(crate) fn slept_past(&mut self, serving: u64) -> bool {
        self.slept_at
            .replace(serving)
            .is_some_and(|at| at != serving)
    }

    pub(crate) fn nap() -> Duration {
        Duration::from_millis(NAP_MILLIS)
    }
}

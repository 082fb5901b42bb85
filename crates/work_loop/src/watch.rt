// The time that a piece of work takes, to tell small pieces from large ones.

use std::time::{Clock, Duration, Instant};

// The longest time of a small piece of work, in microseconds: about the cost of two turns of a lock between two threads.
const SMALL_MICROS: u64 = 25;

/// A clock that was read when some work began. Its answer is a hint: no clause depends on it.
#[derive(Drop)]
pub struct Watch {
    // None if the clock could not be read.
    began: Option<Instant>,
}

impl Watch {
    /// A watch that starts now.
    pub fn start<R: Clock>(rt: &R) -> Watch {
        Watch {
            began: Instant::now(rt).ok(),
        }
    }

    /// Whether a piece of work that took the time since the start is small.
    pub fn shows_small<R: Clock>(&self, rt: &R) -> bool {
        let Some(began) = self.began else {
            return false;
        };
        let limit = Duration::from_micros(SMALL_MICROS);
        began.elapsed(rt).is_ok_and(|took| took <= limit)
    }
}

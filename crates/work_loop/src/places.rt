// The number of workers that are active at the same time.

ghost use Rattle.std.specs.Prelude.{◌≤◌};

use std::sync::atomic::{AtomicU64, Ordering};
use std::thread::{Threads, available_parallelism};

// The fewest places: two workers can always meet.
const FEWEST: u64 = 2;

/// Places for active workers: as many as there are processors for the program's threads, but at least two. A worker takes a place
/// for each look for work and the work that follows; if none is free it sleeps for a while. So a worker without a processor
/// neither waits for the lock ahead of a worker with one, nor holds a ticket whose plan comes too late. No clause depends on the
/// places.
#[derive(Drop)]
pub struct Places {
    most: u64,
    taken: AtomicU64,
}

impl Places {
    /// All places, each of them free.
    pub fn new<R: Threads>(rt: &R) -> Places
        ensures two { 2 ≤ result.most }
    {
        let most = match available_parallelism(rt) {
            Ok(processors) => FEWEST.max(processors.get() as u64),
            Err(_) => FEWEST,
        };
        Places {
            most,
            taken: AtomicU64::new(0),
        }
    }

    /// Takes a place, if one is free. The place must be left again.
    pub(crate) fn take(&self) -> bool {
        if self.taken.fetch_add(1, Ordering::SeqCst) < self.most {
            return true;
        }
        self.leave();
        false
    }

    /// Leaves the place that was taken.
    pub(crate) fn leave(&self) {
        self.taken.fetch_sub(1, Ordering::SeqCst);
    }
}

//! A gate at which two workers meet.

use crossbeam_utils::Backoff;
use std::sync::atomic::{AtomicBool, Ordering};
use work_loop::Gate;

// The number of turns for which the gate holds a ticket.
const TURNS: u32 = 1_000_000;

/// A gate that makes two workers meet: it holds ticket 1 until ticket 2 is finished, or for a million turns.
#[derive(Drop)]
pub(crate) struct MeetGate {
    second: AtomicBool,
    met: AtomicBool,
}

impl MeetGate {
    /// A gate that no ticket has passed yet.
    pub(crate) fn new() -> MeetGate {
        MeetGate {
            second: AtomicBool::new(false),
            met: AtomicBool::new(false),
        }
    }

    /// Whether ticket 2 was finished while ticket 1 was held. This needs two workers, so no contract can promise it.
    pub(crate) fn met(&self) -> bool {
        self.met.load(Ordering::SeqCst)
    }
}

impl Gate for MeetGate {
    fn enter(&self, call: u64) {
        if call != 1 {
            return;
        }
        let backoff = Backoff::new();
        for _ in 0..TURNS {
            if self.second.load(Ordering::SeqCst) {
                self.met.store(true, Ordering::SeqCst);
                return;
            }
            backoff.snooze();
        }
    }

    fn leave(&self, call: u64) {
        if call == 2 {
            self.second.store(true, Ordering::SeqCst);
        }
    }
}

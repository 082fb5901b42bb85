// The naps of a worker that gains nothing by going on at once.
ghost use Rattle.std.specs.Prelude.{◌≡◌, ◌≤◌, ◌+◌, min};

use crossbeam_utils::Backoff;
use std::marker::Model;
use std::sync::Wait;
use std::sync::atomic::AtomicU64;
use std::time::Duration;

// The shortest nap, in microseconds. Each further one is twice as long, up to a millisecond.
const NAP_MICROS: u64 = 16;

// The greatest number of times that a nap is doubled.
const DOUBLINGS: u32 = 6;

/// The attempts of a worker that brought nothing since it last did something useful; contracts see how often its next nap is
/// doubled. A plan that comes too late, or a look for work that finds none, takes the lock from workers that get on. So a worker
/// to which this happens again and again sleeps longer and longer.
#[derive(Drop)]
pub(crate) struct Rest {
    backoff: Backoff,
    // Nobody rings it: a nap ends by its time.
    bell: AtomicU64,
    vain: u32,
}

impl Model for Rest {
    ghost use Rattle.std.specs.Prelude.{ℕ, ◌≤◌};

    ghost Value = { ℕ };

    ghost view = { λ r. r.vain };

    ghost invariant = { λ r. r.vain ≤ 6 };
}

impl Rest {
    pub(crate) fn new() -> Rest
        ensures none { result ≡ 0 }
    {
        Rest {
            backoff: Backoff::new(),
            bell: AtomicU64::new(0),
            vain: 0,
        }
    }

    /// Notes that something was done, and that there may be more to do at once.
    pub(crate) fn end(&mut self)
        ensures none { self.new ≡ 0 }
    {
        self.backoff.reset();
        self.vain = 0;
    }

    /// Notes that a plan came too late, and naps. The first such plan in a row costs no nap: the next one may well be in time.
    pub(crate) fn late<R: Wait>(&mut self, rt: &R)
        ensures longer { self.new ≡ min (self.old + 1) 6 }
    {
        if self.vain > 0 {
            self.nap(rt);
        }
        self.count();
    }

    /// Notes that there was nothing to do. Naps, once a few short waits have brought nothing.
    pub(crate) fn idle<R: Wait>(&mut self, rt: &R)
        ensures longer { self.old ≤ self.new }
    {
        if self.backoff.is_completed() {
            self.nap(rt);
            self.count();
        } else {
            self.backoff.snooze();
        }
    }

    /// Notes that no place was free, and naps.
    pub(crate) fn stand_by<R: Wait>(&mut self, rt: &R)
        ensures longer { self.new ≡ min (self.old + 1) 6 }
    {
        self.nap(rt);
        self.count();
    }

    fn count(&mut self)
        ensures longer { self.new ≡ min (self.old + 1) 6 }
    {
        self.vain = self.vain.saturating_add(1).min(DOUBLINGS);
    }

    fn nap<R: Wait>(&self, rt: &R) {
        let micros = NAP_MICROS << self.vain.min(DOUBLINGS);
        self.bell.park_timeout(rt, 0, Duration::from_micros(micros));
    }
}

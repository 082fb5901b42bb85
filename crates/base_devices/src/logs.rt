// The calls of a disk in memory.
ghost use Rattle.std.specs.Prelude.{◌≡◌, ◌≤◌, []};
ghost use Rattle.base_devices.specs.Logs.{is_listed};

use crate::DiskRefusal;
use std::alloc::Global;
use std::marker::Model;

/// The work of a call of a disk.
#[derive(Drop)]
pub(crate) enum Deed {
    Load,
    Sync,
    Write(usize, Vec<u8>),
}

/// A counted call.
#[derive(Drop)]
pub(crate) struct Counted {
    deed: Deed,
    failed: bool,
}

/// The counted calls, and the numbers of the calls that fail.
#[derive(Drop)]
pub(crate) struct Log {
    calls: Vec<Counted>,
    failing: Vec<u64>,
    faults: u64,
}

impl Model for Log {
    ghost use Rattle.std.specs.Prelude.{map};
    ghost use Rattle.base_devices.specs.Logs.{Log as LogState};
    ghost use Rattle.base_devices.specs.Counted.{call_of};

    ghost Value = { LogState };

    ghost view = { λ s. record {
      calls = map call_of s.calls.items;
      failing = s.failing.items;
      faults = s.faults;
    } };
}

// Whether the call after `calls` calls must fail.
fn is_listed(failing: &[u64], calls: usize) -> bool
    ensures { result ≡ is_listed failing.now calls }
{
    let number = (calls as u64).saturating_add(1);
    failing.contains(&number)
}

impl Log {
    ghost use Rattle.base_devices.specs.Logs.{IsCounted, fails_next};
    ghost use Rattle.base_devices.specs.Counted.{deed_of};

    /// The log before the first call.
    pub(crate) fn new(alloc: Global, failing: Vec<u64>) -> Log
        ensures { result ≡ record { calls = []; failing = failing.items; faults = 0 } }
    {
        Log {
            calls: Vec::new(alloc),
            failing,
            faults: 0,
        }
    }

    // Whether the next call must fail.
    fn fails_next(&self) -> bool
        ensures { result ≡ fails_next self.now }
    {
        is_listed(&self.failing, self.calls.len())
    }

    /// Counts a call, which fails if its number is listed.
    pub(crate) fn count(&mut self, deed: Deed) -> Result<(), DiskRefusal>
        ensures counted { IsCounted (deed_of deed) self.old self.new result }
        ensures later { self.old.faults ≤ self.new.faults }
    {
        self.calls.reserve(1)?;
        if self.fails_next() {
            self.calls.push(Counted { deed, failed: true }).unwrap();
            self.faults = self.faults.saturating_add(1);
            return Err(DiskRefusal::Failed);
        }
        self.calls
            .push(Counted {
                deed,
                failed: false,
            })
            .unwrap();
        Ok(())
    }

    /// The number of calls that have failed.
    pub(crate) fn faults(&self) -> u64
        ensures { result ≡ self.now.faults }
    {
        self.faults
    }
}

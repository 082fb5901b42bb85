// The calls of a disk over a file.
ghost use Rattle.std.specs.Prelude.{◌≡◌, ◌≤◌, []};

use base_devices::DiskRefusal;
use std::alloc::Global;
use std::fs::File;
use std::io::{self, ErrorKind};
use std::marker::Model;
use std::os::unix::fs::FileExt;

/// What one call of a disk does.
#[derive(Drop)]
pub(crate) enum Deed {
    Load,
    Sync,
    Write(usize, Vec<u8>),
}

/// A counted call, and whether it failed.
#[derive(Drop)]
pub(crate) struct Counted {
    deed: Deed,
    failed: bool,
}

/// The counted calls, the number of calls that failed since the file was opened, and the reason of the first failure.
#[derive(Drop)]
pub(crate) struct Log {
    calls: Vec<Counted>,
    faults: u64,
    reason: Option<io::Error>,
}

impl Model for Log {
    ghost use Rattle.std.specs.Prelude.{map};
    ghost use Rattle.ws_file.specs.Files.{Log as LogState};
    ghost use Rattle.ws_file.specs.Counted.{call_of};

    ghost Value = { LogState };

    ghost view = { λ s. record {
      calls = map call_of s.calls.items;
      faults = s.faults;
    } };
}

impl Deed {
    // Makes the call of the system. The disk begins at the place `base` of the file. A load reads nothing: the bytes were read
    // when the file was opened.
    fn make(&self, file: &File, base: u64) -> io::Result<()> {
        match self {
            Deed::Load => Ok(()),
            Deed::Sync => file.sync_data(),
            Deed::Write(at, bytes) => match base.checked_add(*at as u64) {
                Some(place) => file.write_all_at(bytes, place),
                None => Err(io::Error::from(ErrorKind::FileTooLarge)),
            },
        }
    }
}

impl Log {
    ghost use Rattle.ws_file.specs.Files.{IsCounted, IsGivenUp};
    ghost use Rattle.ws_file.specs.Counted.{deed_of};

    /// A log without calls.
    pub(crate) fn new(alloc: Global) -> Log
        ensures { result ≡ record { calls = []; faults = 0 } }
    {
        Log {
            calls: Vec::new(alloc),
            faults: 0,
            reason: None,
        }
    }

    /// Makes the call and counts it. After a failed call no further call is made, and each counts as failed.
    pub(crate) fn make(&mut self, file: &File, base: u64, deed: Deed) -> Result<(), DiskRefusal>
        ensures counted { IsCounted (deed_of deed) self.old self.new result }
        ensures later { self.old.faults ≤ self.new.faults }
        ensures given_up { IsGivenUp self.old.faults result }
    {
        self.calls.reserve(1)?;
        if self.faults == 0 {
            match deed.make(file, base) {
                Ok(()) => {
                    self.calls
                        .push(Counted {
                            deed,
                            failed: false,
                        })
                        .unwrap();
                    return Ok(());
                }
                Err(error) => self.reason = Some(error),
            }
        }
        self.calls.push(Counted { deed, failed: true }).unwrap();
        self.faults = self.faults.saturating_add(1);
        Err(DiskRefusal::Failed)
    }

    /// The number of calls that failed since the file was opened.
    pub(crate) fn faults(&self) -> u64
        ensures { result ≡ self.now.faults }
    {
        self.faults
    }

    /// The reason of the first failure; None if no call has failed.
    pub(crate) fn reason(&self) -> Option<io::Error> {
        self.reason
    }

    /// Forgets the calls, but neither the number of failures nor the reason of the first.
    pub(crate) fn begin_again(&mut self)
        ensures { self.new ≡ record { calls = []; faults = self.old.faults } }
    {
        self.calls.clear();
    }
}

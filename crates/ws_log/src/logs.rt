// A log that is in hand, and a log at rest.
ghost use Rattle.std.specs.Prelude.{◌≡◌, ◌++◌, ◌∷◌, [], ℕ, List, drop, IfOk};
ghost use Rattle.ws_file.specs.Files.{bytes_of, state_of};
ghost use Rattle.base_roll.specs.Rolls.{IsInHand};
ghost use Rattle.base_devices.specs.States.{IsSettled};
ghost use Rattle.ws_seal.specs.Logs.{HasGateAt, IsHeld};

use crate::faults::{Fault, not_appended};
use def_memory::Memory;
use std::alloc::Global;
use std::marker::Model;
use ws_file::{FileDisk, Released};
use ws_seal::{Log, Mark};

/// A log in its file, locked by this process and read to its end: what follows the last text is in hand.
#[derive(Drop)]
pub struct OpenLog {
    log: Log<FileDisk>,
    count: u64,
}

impl Model for OpenLog {
    ghost use Rattle.ws_file.specs.Files.{state_of};
    ghost use Rattle.base_roll.specs.Rolls.{IsInHand};
    ghost use Rattle.ws_log.specs.Held.{HeldLog};

    ghost Value = { HeldLog };

    ghost view = { λ s. record {
      disk = s.log.disk;
      gate = s.log.gate;
      mark = s.log.mark.digits;
      count = s.count;
    } };

    ghost invariant = { λ s. IsInHand (state_of s.log.disk) (record { gate = s.log.gate }) };
}

/// A log that this process has read and released: the file, the place of its gate, the mark of the last text, and the number of
/// texts that were read.
#[derive(Drop)]
pub struct RestingLog {
    pub(crate) released: Released,
    pub(crate) place: u64,
    pub(crate) mark: Mark,
    pub(crate) count: u64,
}

/// The log of a disk from its gate on; nothing is pending on the disk. The bytes before the gate are dropped.
pub(crate) fn from_gate(disk: FileDisk, gate: usize, mark: Mark) -> Result<Log<FileDisk>, Memory>
    requires gate { HasGateAt gate (bytes_of disk) }
    requires settled { IsSettled (state_of disk) }
    ensures held { IfOk result (λ log.
        IsHeld [] mark.digits [] (state_of log.disk) log.gate log.mark.digits) }
    ensures hand { IfOk result (λ log.
        IsInHand (state_of log.disk) (record { gate = log.gate })) }
    ensures marked { IfOk result (λ log. log.mark ≡ mark) }
    ensures rest { IfOk result (λ log. bytes_of log.disk ≡ drop gate (bytes_of disk)) }
{
    let disk = disk.from_place(gate)?;
    Ok(Log {
        disk,
        gate: 0,
        mark,
    })
}

impl OpenLog {
    /// The log in hand, with its number of texts.
    pub(crate) fn of(log: Log<FileDisk>, count: u64) -> OpenLog
        requires { IsInHand (state_of log.disk) (record { gate = log.gate }) }
        ensures { result ≡ record {
          disk = log.disk;
          gate = log.gate;
          mark = log.mark.digits;
          count = count;
        } }
    {
        OpenLog { log, count }
    }

    /// The number of texts, with the head.
    pub fn count(&self) -> u64
        ensures { result ≡ self.now.count }
    {
        self.count
    }

    /// Appends a text. At `Ok` it is acknowledged: from then on, each crash leaves a log that has it. After a fault it may be
    /// there or not, and the log is given up.
    pub fn append(self, alloc: Global, text: &[u8]) -> Result<OpenLog, Fault>
        ensures acknowledged { (before m : List ℕ) (texts : List (List ℕ))
            → IsHeld before m texts (state_of self.disk) self.gate self.mark
            → IfOk result (λ next. IsHeld before m (texts ++ text.now ∷ []) (state_of next.disk)
            next.gate next.mark) }
    {
        let OpenLog { mut log, count } = self;
        match log.append(alloc, text) {
            Ok(()) => Ok(OpenLog::of(log, count.saturating_add(1))),
            Err(fault) => Err(not_appended(&log.disk, fault)),
        }
    }

    /// Releases the lock. The file stays open, so that a fold by another process is noticed.
    pub fn release(self) -> Result<RestingLog, Fault>
        ensures marked { IfOk result (λ resting. resting.mark.digits ≡ self.mark) }
        ensures counted { IfOk result (λ resting. resting.count ≡ self.count) }
    {
        let OpenLog { log, count } = self;
        let Log { disk, gate, mark } = log;
        let place = disk.base().saturating_add(gate as u64);
        let released = disk.release().map_err(Fault::NotLocked)?;
        Ok(RestingLog {
            released,
            place,
            mark,
            count,
        })
    }
}

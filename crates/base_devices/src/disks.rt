// Disks.
ghost use Rattle.std.specs.Prelude.{◌≡◌, ◌≤◌, length, IfOk, OnOk};
ghost use Rattle.base_devices.specs.declared.disks.DiskRefusal.TheVariants.{Memory};

use std::alloc::{AllocError, AllocFailed, Global};

/// Why a call of a disk failed.
#[derive(Clone, Copy, Debug, PartialEq, Eq)]
pub enum DiskRefusal {
    /// The disk failed, and has counted the fault.
    Failed,
    /// There was not enough memory for the call. The disk is as it was before it.
    Memory,
}

impl From<AllocError> for DiskRefusal {
    ghost from_gives = { λ _ refusal. refusal ≡ Memory };

    fn from(_error: AllocError) -> DiskRefusal {
        DiskRefusal::Memory
    }
}

impl<T: Drop> From<AllocFailed<T>> for DiskRefusal {
    ghost from_gives = { λ _ refusal. refusal ≡ Memory };

    fn from(_error: AllocFailed<T>) -> DiskRefusal {
        DiskRefusal::Memory
    }
}

/// A disk, as its one user sees it: the bytes of one file.
///
/// After a crash, each range that was written since the last sync that returned `Ok` may hold any bytes, and the file may end
/// anywhere from its old end on. All other bytes stay. A failed write counts as a write. Right after a sync that returned `Ok`, a
/// crash leaves the bytes that a read gives.
pub trait Disk {
    ghost use Rattle.base_devices.specs.States.{GoesOn, IsLeft, IsLeftTorn, IsRefused, IsSettled, LeavesOnly, State};
    ghost use Rattle.base_devices.specs.Torn.{range_of, written};

    /// The state of the disk, as contracts see it.
    ghost state: { Self → State };

    /// Reads all bytes.
    fn load(&mut self, alloc: Global) -> Result<Vec<u8>, DiskRefusal>
        ensures bytes { IfOk result (λ all. all.items ≡ (state self.old).bytes) }
        ensures same { (state self.new).bytes ≡ (state self.old).bytes }
        ensures time { GoesOn (state self.old) (state self.new) }
        ensures images { LeavesOnly (state self.old) (state self.new) (IsLeft (state self.old)) }
        ensures read { IsLeft (state self.new) (state self.new).bytes }
        ensures cause { IsRefused (state self.old) (state self.new) result };

    /// Writes the bytes from the place on, over the old bytes and beyond their end.
    fn write_at(&mut self, at: usize, bytes: &[u8]) -> Result<(), DiskRefusal>
        requires { at ≤ length (state self.old).bytes }
        ensures bytes { OnOk result
            ((state self.new).bytes ≡ written at bytes.now (state self.old).bytes) }
        ensures time { GoesOn (state self.old) (state self.new) }
        ensures images { LeavesOnly (state self.old) (state self.new)
            (IsLeftTorn (state self.old) (range_of at bytes.now)) }
        ensures read { IsLeft (state self.new) (state self.new).bytes }
        ensures cause { IsRefused (state self.old) (state self.new) result };

    /// Makes all writes so far last.
    fn sync(&mut self) -> Result<(), DiskRefusal>
        ensures settled { OnOk result (IsSettled (state self.new)) }
        ensures same { (state self.new).bytes ≡ (state self.old).bytes }
        ensures time { GoesOn (state self.old) (state self.new) }
        ensures images { LeavesOnly (state self.old) (state self.new) (IsLeft (state self.old)) }
        ensures read { IsLeft (state self.new) (state self.new).bytes }
        ensures cause { IsRefused (state self.old) (state self.new) result };

    /// The number of times that the disk has failed. The count stops at the last value of a `u64`.
    fn faults(&self) -> u64
        ensures { result ≡ (state self.now).faults };
}

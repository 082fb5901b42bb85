// The calls of the disk that put a record after a gate.
ghost use Rattle.std.specs.Prelude.{◌≡◌, ◌+◌, ◌<◌, ◌≤◌, ◌^◌, ◌∷◌, [], length, OnOk, IsErrOf};
ghost use Rattle.base_devices.specs.States.{GoesOn, HasFailed, IsLeft, IsSettled, LeavesOnly};
ghost use Rattle.base_devices.specs.Torn.{IsTorn, range_of, written};
ghost use Rattle.base_roll.specs.Logging.{IsBeingLogged, opened_at};

use base_devices::{Disk, DiskRefusal};

/// Writes the bytes at the place, and syncs them. A crash meanwhile leaves the old bytes with a part of the write.
pub(crate) fn write_synced<D: Disk>(
    disk: &mut D,
    at: usize,
    bytes: &[u8],
) -> Result<(), DiskRefusal>
    requires at { at ≤ length (D.state disk.old).bytes }
    requires settled { IsSettled (D.state disk.old) }
    ensures images { LeavesOnly (D.state disk.old) (D.state disk.new)
        (IsTorn (range_of at bytes.now) (D.state disk.old).bytes) }
    ensures lasts { OnOk result (IsSettled (D.state disk.new)) }
    ensures written { OnOk result
        ((D.state disk.new).bytes ≡ written at bytes.now (D.state disk.old).bytes) }
    ensures time { GoesOn (D.state disk.old) (D.state disk.new) }
    ensures read { IsLeft (D.state disk.new) (D.state disk.new).bytes }
    ensures later { (D.state disk.old).faults ≤ (D.state disk.new).faults }
    ensures reliable { (D.state disk.new).reliable ≡ (D.state disk.old).reliable }
    ensures failed { IsErrOf result DiskRefusal.Failed
        → HasFailed (D.state disk.old) (D.state disk.new) }
{
    disk.write_at(at, bytes)?;
    disk.sync()
}

/// Puts the text of a record after the gate, and then opens the gate. Each of the two writes is synced before the next call.
pub(crate) fn log_record<D: Disk>(disk: &mut D, gate: usize, text: &[u8]) -> Result<(), DiskRefusal>
    requires gate { gate < length (D.state disk.old).bytes }
    requires settled { IsSettled (D.state disk.old) }
    requires room { gate + 1 < 2 ^ 64 }
    ensures images { LeavesOnly (D.state disk.old) (D.state disk.new)
        (IsBeingLogged gate text.now (D.state disk.old).bytes) }
    ensures lasts { OnOk result (IsSettled (D.state disk.new)) }
    ensures logged { OnOk result
        ((D.state disk.new).bytes ≡ opened_at gate text.now (D.state disk.old).bytes) }
    ensures time { GoesOn (D.state disk.old) (D.state disk.new) }
    ensures read { IsLeft (D.state disk.new) (D.state disk.new).bytes }
    ensures later { (D.state disk.old).faults ≤ (D.state disk.new).faults }
    ensures reliable { (D.state disk.new).reliable ≡ (D.state disk.old).reliable }
    ensures failed { IsErrOf result DiskRefusal.Failed
        → HasFailed (D.state disk.old) (D.state disk.new) }
{
    write_synced(disk, gate + 1, text)?;
    write_synced(disk, gate, &[1])
}

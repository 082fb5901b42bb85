// Reading the bytes of a disk.
ghost use Rattle.std.specs.Prelude.{◌≡◌, ◌≤◌, IfOk, OnOk, IsErrOf};
ghost use Rattle.base_devices.specs.States.{HasFailed, IsSettled};
ghost use Rattle.base_roll.specs.Histories.{IsReading};

use base_devices::{Disk, DiskRefusal};
use std::alloc::Global;

/// Syncs the disk, and loads its bytes. It writes nothing.
pub fn load_synced<D: Disk>(alloc: Global, disk: &mut D) -> Result<Vec<u8>, DiskRefusal>
    ensures bytes { IfOk result (λ all. all.items ≡ (D.state disk.old).bytes) }
    ensures reads { IsReading (D.state disk.old) (D.state disk.new) }
    ensures lasts { OnOk result (IsSettled (D.state disk.new)) }
    ensures later { (D.state disk.old).faults ≤ (D.state disk.new).faults }
    ensures reliable { (D.state disk.new).reliable ≡ (D.state disk.old).reliable }
    ensures failed { IsErrOf result DiskRefusal.Failed
        → HasFailed (D.state disk.old) (D.state disk.new) }
{
    disk.sync()?;
    disk.load(alloc)
}

// Opens a journal again.
ghost use Rattle.std.specs.Prelude.{OnOk};
ghost use Rattle.base_devices.specs.States.{IsSettled};
ghost use Rattle.base_roll.specs.Histories.{IsReading};
ghost use Rattle.run_journal.specs.Answers.{RecoverTold};

use crate::reading::read_journal;
use crate::{RecoverFault, Recovered};
use base_devices::Disk;
use base_roll::load_synced;
use std::alloc::Global;

/// Opens the journal that the disk begins with: its session, and the session's base after the commits of the journal, in order.
/// Nothing is written. At `Ok` nothing is pending on the disk.
///
/// `Damaged` comes exactly if the bytes do not begin with a journal. It has the first place at which they do not. That is 0 if
/// they have no whole session; else the place of the gate that is missing, or of the gate of the first record that is not whole
/// or no commit.
pub fn recover<D: Disk>(alloc: Global, disk: &mut D) -> Result<Recovered, RecoverFault>
    ensures told { RecoverTold (D.state disk.old) (D.state disk.new) result }
    ensures opened { IsReading (D.state disk.old) (D.state disk.new) }
    ensures lasts { OnOk result (IsSettled (D.state disk.new)) }
{
    let bytes = load_synced(alloc, disk)?;
    read_journal(alloc, &bytes)
}

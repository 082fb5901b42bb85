// An open log, and the append of a text.
ghost use Rattle.std.specs.Prelude.{◌≡◌, ◌++◌, ◌∷◌, [], ℕ, List, OnOk};
ghost use Rattle.base_roll.specs.Rolls.{IsInHand};
ghost use Rattle.base_roll.specs.Histories.{IsAppending};
ghost use Rattle.ws_seal.specs.Appends.{AppendTold};
ghost use Rattle.ws_seal.specs.Logs.{HasTexts, IsHeld};

use crate::seals::{Mark, seal};
use base_devices::Disk;
use base_roll::Roll;
use def_memory::Memory;
use std::alloc::Global;

/// A log on a disk: the place of its gate, and the mark of its last text.
#[derive(Drop)]
pub struct Log<D: Disk + Drop> {
    pub disk: D,
    pub gate: usize,
    pub mark: Mark,
}

/// Why a text is not acknowledged. After `DiskFault` and `DiskMemory` the text may be in the log or not, and the log must be read
/// again before anything else is appended.
#[derive(Clone, Copy, Debug, PartialEq, Eq)]
pub enum AppendFault {
    /// The payload would have this number of bytes, which is too large. The log is unchanged.
    TooLarge(u64),
    /// The disk failed.
    DiskFault,
    /// Memory for a call of the disk ran out.
    DiskMemory,
    /// Memory ran out before the first call of the disk. The log is unchanged.
    Memory,
}

impl From<Memory> for AppendFault {
    ghost use Rattle.std.specs.Prelude.{◌≡◌};
    ghost use Rattle.ws_seal.specs.declared.logs.AppendFault.TheVariants.{Memory};

    ghost from_gives = { λ _ fault. fault ≡ Memory };

    fn from(_memory: Memory) -> AppendFault {
        AppendFault::Memory
    }
}

impl From<base_roll::AppendFault> for AppendFault {
    ghost use Rattle.std.specs.Prelude.{◌≡◌};
    ghost use Rattle.ws_seal.specs.Appends.{append_fault};

    ghost from_gives = { λ refused fault. fault ≡ append_fault refused };

    fn from(refused: base_roll::AppendFault) -> AppendFault {
        match refused {
            base_roll::AppendFault::TooLarge(_roll, size) => AppendFault::TooLarge(size),
            base_roll::AppendFault::DiskFault => AppendFault::DiskFault,
            base_roll::AppendFault::DiskMemory => AppendFault::DiskMemory,
            base_roll::AppendFault::Memory(_roll) => AppendFault::Memory,
        }
    }
}

impl<D: Disk + Drop> Log<D> {
    /// Appends a text. At `Ok` it is acknowledged: from then on each crash leaves a log that has the text. A crash at any moment
    /// before leaves the log without the text, or with it.
    pub fn append(&mut self, alloc: Global, text: &[u8]) -> Result<(), AppendFault>
        requires hand { IsInHand (D.state self.old.disk) (record { gate = self.old.gate }) }
        ensures images { (before m : List ℕ) (texts : List (List ℕ))
            → IsHeld before m texts (D.state self.old.disk) self.old.gate self.old.mark.digits
            → IsAppending (HasTexts before m) texts text.now (D.state self.old.disk)
            (D.state self.new.disk) }
        ensures acknowledged { (before m : List ℕ) (texts : List (List ℕ))
            → IsHeld before m texts (D.state self.old.disk) self.old.gate self.old.mark.digits
            → OnOk result (IsHeld before m (texts ++ text.now ∷ []) (D.state self.new.disk)
            self.new.gate self.new.mark.digits) }
        ensures hand { OnOk result
            (IsInHand (D.state self.new.disk) (record { gate = self.new.gate })) }
        ensures told { AppendTold self.old self.new (D.state self.old.disk)
            (D.state self.new.disk) result }
    {
        let (payload, mark) = seal(alloc, &self.mark.digits, text)?;
        let roll = Roll::with_gate_at(self.gate);
        let next = base_roll::append(alloc, roll, &mut self.disk, &payload)?;
        self.gate = next.gate();
        self.mark = mark;
        Ok(())
    }
}

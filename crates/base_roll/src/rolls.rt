// A roll in hand, and why a record is not acknowledged.

use std::marker::Model;

/// A roll in hand: the place of its gate on the disk.
#[derive(Debug, Drop)]
pub struct Roll {
    pub(crate) gate: usize,
}

impl Model for Roll {
    ghost use Rattle.base_roll.specs.Rolls.{Hold};

    ghost Value = { Hold };

    ghost view = { λ r. record { gate = r.gate } };
}

impl Roll {
    ghost use Rattle.std.specs.Prelude.{◌≡◌};

    /// The roll whose gate is at the place.
    pub fn with_gate_at(gate: usize) -> Roll
        ensures { result ≡ record { gate = gate } }
    {
        Roll { gate }
    }

    /// The place of its gate.
    pub fn gate(&self) -> usize
        ensures { result ≡ self.now.gate }
    {
        self.gate
    }
}

/// Why a record is not acknowledged. After `DiskFault` and `DiskMemory` the record may be in the roll or not, so the roll must be
/// read again before the next append.
#[derive(Debug, Drop)]
pub enum AppendFault {
    /// The record has this number of bytes, which is too large. The roll and the disk are unchanged.
    TooLarge(Roll, u64),
    /// The disk failed.
    DiskFault,
    /// There was not enough memory for a call of the disk.
    DiskMemory,
    /// There was not enough memory before the first call of the disk. The roll and the disk are unchanged.
    Memory(Roll),
}

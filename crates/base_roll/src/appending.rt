// Making a roll, and appending a record.
ghost use Rattle.std.specs.Prelude.{◌≡◌, ◌+◌, ◌<◌, ◌≤◌, ◌^◌, ◌++◌, ◌∷◌, [], ℕ, List, length, IfOk, IfSome, IfNone, IsErrOf, OnOk};
ghost use Rattle.base_devices.specs.States.{HasFailed, IsLeft, IsSettled};
ghost use Rattle.base_roll.specs.Format.{roll_text};
ghost use Rattle.base_roll.specs.Rolls.{IsAt, IsInHand, IsRoll};
ghost use Rattle.base_roll.specs.Histories.{IsAppending};
ghost use Rattle.base_roll.specs.Answers.{AppendTold, IsTooLarge};

use crate::framing::with_gate;
use crate::logging::{log_record, write_synced};
use crate::{AppendFault, Roll};
use base_devices::{Disk, DiskRefusal};
use std::alloc::Global;

/// The most bytes that a payload may have: its length fits 4 bytes.
pub const PAYLOAD_LIMIT: usize = 4_294_967_295;

/// Writes the text to an empty disk. After `Ok` it is on the disk, and nothing is pending. After a fault a read gives bytes that
/// a crash may leave.
pub fn create<D: Disk>(disk: &mut D, text: &[u8]) -> Result<(), DiskRefusal>
    requires empty { (D.state disk.old).bytes ≡ [] }
    requires settled { IsSettled (D.state disk.old) }
    ensures bytes { OnOk result ((D.state disk.new).bytes ≡ text.now) }
    ensures lasts { OnOk result (IsSettled (D.state disk.new)) }
    ensures read { IsLeft (D.state disk.new) (D.state disk.new).bytes }
    ensures reliable { (D.state disk.new).reliable ≡ (D.state disk.old).reliable }
    ensures failed { IsErrOf result DiskRefusal.Failed
        → HasFailed (D.state disk.old) (D.state disk.new) }
{
    write_synced(disk, 0, text)
}

// The place of the gate after a payload of `size` bytes; None if the payload is too large.
fn next_gate(roll: &Roll, size: usize) -> Option<usize>
    ensures some { IfSome result (λ next. (next ≡ roll.now.gate + size + 5) × (size ≤ 4294967295)
        × (next + 1 < 2 ^ 64)) }
    ensures none { IfNone result (IsTooLarge roll.now size) }
{
    if size > PAYLOAD_LIMIT {
        return None;
    }
    if roll.gate > usize::MAX - 6 - size {
        return None;
    }
    Some(roll.gate + size + 5)
}

/// Appends a record. `Ok` acknowledges it: from then on each crash leaves a roll that has it. A crash at any earlier moment
/// leaves the roll with or without it.
pub fn append<D: Disk>(
    alloc: Global,
    roll: Roll,
    disk: &mut D,
    payload: &[u8],
) -> Result<Roll, AppendFault>
    requires roll { IsInHand (D.state disk.old) roll }
    ensures images { (before : List ℕ) (payloads : List (List ℕ))
        → IsAt before payloads (D.state disk.old) roll
        → IsAppending (IsRoll before) payloads payload.now (D.state disk.old) (D.state disk.new) }
    ensures acknowledged { (before : List ℕ) (payloads : List (List ℕ))
        → IsAt before payloads (D.state disk.old) roll
        → IfOk result (λ next. IsAt before (payloads ++ payload.now ∷ []) (D.state disk.new) next) }
    ensures bytes { (before : List ℕ) (payloads : List (List ℕ))
        → IsAt before payloads (D.state disk.old) roll
        → (D.state disk.old).bytes ≡ roll_text before payloads
        → OnOk result
        ((D.state disk.new).bytes ≡ roll_text before (payloads ++ payload.now ∷ [])) }
    ensures told { AppendTold roll (length payload.now) disk.old disk.new (D.state disk.old)
        (D.state disk.new) result }
    ensures reliable { (D.state disk.new).reliable ≡ (D.state disk.old).reliable }
{
    let Some(next) = next_gate(&roll, payload.len()) else {
        return Err(AppendFault::TooLarge(roll, payload.len() as u64));
    };
    let record = match with_gate(alloc, payload) {
        Ok(record) => record,
        Err(_) => return Err(AppendFault::Memory(roll)),
    };
    match log_record(disk, roll.gate, &record) {
        Ok(()) => Ok(Roll { gate: next }),
        Err(DiskRefusal::Failed) => Err(AppendFault::DiskFault),
        Err(DiskRefusal::Memory) => Err(AppendFault::DiskMemory),
    }
}

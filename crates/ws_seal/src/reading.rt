// Reads a log, from its head on or after a mark.
ghost use Rattle.std.specs.Prelude.{◌≡◌, ◌≤◌, ◌++◌, ◌∷◌, [], length, take, map, true, false, IfOk, OnOk};
ghost use Rattle.base_devices.specs.States.{IsSettled};
ghost use Rattle.base_roll.specs.Histories.{IsReading};
ghost use Rattle.ws_seal.specs.Answers.{AfterTold, DiskTold, GateTold, LogTold, TailTold};
ghost use Rattle.ws_seal.specs.Logs.{BeginsSealed, HasGateAt, IsHiddenAfter};

use crate::seals::{Mark, unseal};
use crate::types::{Damage, ReadFault, Texts};
use base_devices::Disk;
use base_roll::{load_synced, split_frame};
use def_memory::Memory;
use std::alloc::Global;

/// Reads the log on the disk, from its head on. It writes nothing. At `Ok` nothing is pending, and texts may be appended.
pub fn read_log<D: Disk>(alloc: Global, disk: &mut D) -> Result<Texts, ReadFault>
    ensures told { DiskTold LogTold (D.state disk.old) (D.state disk.new) result }
    ensures gate { IfOk result (λ found. HasGateAt found.gate (D.state disk.new).bytes) }
    ensures reads { IsReading (D.state disk.old) (D.state disk.new) }
    ensures lasts { OnOk result (IsSettled (D.state disk.new)) }
{
    let bytes = load_synced(alloc, disk)?;
    log_of(alloc, &bytes)
}

/// Reads the texts on the disk, after the mark. It writes nothing. At `Ok` nothing is pending, and texts may be appended.
pub fn read_tail<D: Disk>(alloc: Global, disk: &mut D, mark: Mark) -> Result<Texts, ReadFault>
    ensures told { DiskTold (TailTold mark.digits) (D.state disk.old) (D.state disk.new) result }
    ensures gate { IfOk result (λ found. HasGateAt found.gate (D.state disk.new).bytes) }
    ensures reads { IsReading (D.state disk.old) (D.state disk.new) }
    ensures lasts { OnOk result (IsSettled (D.state disk.new)) }
{
    let bytes = load_synced(alloc, disk)?;
    tail_of(alloc, &bytes, mark)
}

// Reads the bytes as texts after the mark.
fn tail_of(alloc: Global, bytes: &[u8], mark: Mark) -> Result<Texts, ReadFault>
    ensures { TailTold mark.digits bytes.now result }
{
    texts_after(alloc, bytes, 0, mark, Vec::new(alloc))
}

// Reads the bytes as a log.
fn log_of(alloc: Global, bytes: &[u8]) -> Result<Texts, ReadFault>
    ensures { LogTold bytes.now result }
{
    let Some((payload, _after)) = split_frame(bytes) else {
        return Err(ReadFault::Damaged(Damage::At(0)));
    };
    let Some((mark, head)) = unseal(&[], payload) else {
        return Err(ReadFault::Damaged(Damage::NotAsWritten(0)));
    };
    let start = payload.len() + 4;
    let mut texts = Vec::new(alloc);
    keep(alloc, &mut texts, head)?;
    texts_after(alloc, bytes, start, mark, texts)
}

// Reads the bytes from `start` on as texts after the mark, and adds them to the texts that were read before.
fn texts_after(
    alloc: Global,
    bytes: &[u8],
    start: usize,
    mark: Mark,
    texts: Vec<Vec<u8>>,
) -> Result<Texts, ReadFault>
    requires { start ≤ length bytes.now }
    ensures { AfterTold (take start bytes.now) mark.digits (map (λ v. v.items) texts.items)
        bytes.now result }
{
    let (mut mark, mut texts, mut rest) = (mark, texts, &bytes[start..]);
    'records: loop {
        let gate = bytes.len() - rest.len();
        let [byte, after @ ..] = rest else {
            return Err(ReadFault::Damaged(Damage::At(gate as u64)));
        };
        if *byte != 1 {
            return at_gate(texts, gate, mark, after);
        }
        let Some((payload, more)) = split_frame(after) else {
            return Err(ReadFault::Damaged(Damage::At(gate as u64)));
        };
        let Some((next, text)) = unseal(&mark.digits, payload) else {
            return Err(ReadFault::Damaged(Damage::NotAsWritten(texts.len() as u64)));
        };
        keep(alloc, &mut texts, text)?;
        mark = next;
        rest = more;
    }
}

// The texts that were read up to a closed gate, unless the gate hides records.
fn at_gate(texts: Vec<Vec<u8>>, gate: usize, mark: Mark, after: &[u8]) -> Result<Texts, ReadFault>
    ensures { GateTold mark.digits after.now (map (λ v. v.items) texts.items) gate result }
{
    if hides(&mark, after) {
        return Err(ReadFault::Damaged(Damage::At(gate as u64)));
    }
    Ok(Texts { texts, gate, mark })
}

// Whether a closed gate hides records: two whole records stand after it, each with the right mark, and an open gate between them.
fn hides(mark: &Mark, after: &[u8]) -> bool
    ensures hidden { result ≡ true → IsHiddenAfter mark.now.digits after.now }
    ensures not_hidden { result ≡ false → IsHiddenAfter mark.now.digits after.now → ⊥ }
{
    let Some((payload, more)) = split_frame(after) else {
        return false;
    };
    let [byte, next @ ..] = more else {
        return false;
    };
    if *byte != 1 {
        return false;
    }
    let Some((found, _text)) = unseal(&mark.digits, payload) else {
        return false;
    };
    begins_sealed(&found, next)
}

// Whether the bytes begin with the whole payload of a text, sealed after the mark.
fn begins_sealed(mark: &Mark, bytes: &[u8]) -> bool
    ensures yes { result ≡ true → BeginsSealed mark.now.digits bytes.now }
    ensures no { result ≡ false → BeginsSealed mark.now.digits bytes.now → ⊥ }
{
    let Some((payload, _more)) = split_frame(bytes) else {
        return false;
    };
    let Some(_found) = unseal(&mark.digits, payload) else {
        return false;
    };
    true
}

// Puts a copy of the text after the others.
fn keep(alloc: Global, texts: &mut Vec<Vec<u8>>, text: &[u8]) -> Result<(), Memory>
    ensures { OnOk result (map (λ v. v.items) texts.new.items
        ≡ map (λ v. v.items) texts.old.items ++ text.now ∷ []) }
{
    let copy = Vec::from_slice(alloc, text)?;
    texts.push(copy)?;
    Ok(())
}

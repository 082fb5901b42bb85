// Opening a log, and reading it on.
ghost use Rattle.std.specs.Prelude.{IfOk};
ghost use Rattle.base_devices.specs.States.{IsSettled};
ghost use Rattle.ws_file.specs.Files.{bytes_of, state_of};
ghost use Rattle.ws_seal.specs.Logs.{HasGateAt};
ghost use Rattle.ws_log.specs.Held.{IsFresh};
ghost use Rattle.ws_log.specs.Opened.{HandsOn, IsOpened, IsReadAgain, IsReadOn, IsReopened, IsTail, IsWhole};

use crate::faults::{Fault, not_read};
use crate::logs::{OpenLog, RestingLog, from_gate};
use std::alloc::Global;
use std::time::Duration;
use ws_file::{Access, FileDisk, Locked, lock, make_name_last};
use ws_seal::{Mark, Texts, read_log, read_tail};

/// A log in hand, and the texts read from it, in order.
#[derive(Drop)]
pub struct Opened {
    pub log: OpenLog,
    pub texts: Vec<Vec<u8>>,
}

/// A log that was read on.
#[derive(Drop)]
pub enum Reopened {
    /// The same file, with its new texts.
    Same(Opened),
    /// Another file at the path, with all its texts, the head first.
    Another(Opened),
}

// The most texts of a log to which nothing was appended: the head, and the text of the command that created it.
const FIRST_TEXTS: u64 = 2;

/// Opens the log in the file: waits for the lock, syncs what the file has, and reads and checks all texts, the head first. It
/// writes nothing. If `access` is for a change, the file's name is synced too.
pub fn open(rt: &HostRuntime, path: &str, access: Access, wait: Duration) -> Result<Opened, Fault>
    ensures fresh { IfOk result (λ opened. IsFresh opened.log) }
    ensures read { IfOk result IsOpened }
{
    let locked = lock(rt, path, access, wait)?;
    let opened = read_whole(rt.alloc(), locked)?;
    keep_name(rt, path, access, &opened.log)?;
    Ok(opened)
}

/// Opens again the log that this process released, and reads its new texts. If another file is at the path by now, that one is
/// read whole. If `access` is for a change, the file's name is synced too.
pub fn reopen(
    rt: &HostRuntime,
    resting: RestingLog,
    path: &str,
    access: Access,
    wait: Duration,
) -> Result<Reopened, Fault>
    ensures fresh { IfOk result IsReopened }
    ensures read { IfOk result (IsReadAgain resting.mark.digits) }
{
    let locked = lock(rt, path, access, wait)?;
    if locked.is(&resting.released)? {
        let opened = read_new(rt.alloc(), locked, resting)?;
        keep_name(rt, path, access, &opened.log)?;
        return Ok(Reopened::Same(opened));
    }
    let opened = read_whole(rt.alloc(), locked)?;
    keep_name(rt, path, access, &opened.log)?;
    Ok(Reopened::Another(opened))
}

// Syncs the name of a log that is opened for a change and may not have been appended to. The process that gave the name may have
// been killed before it synced it. Whoever appended first came through here, or created the log.
fn keep_name(rt: &HostRuntime, path: &str, access: Access, log: &OpenLog) -> Result<(), Fault> {
    if access == Access::Change && log.count() <= FIRST_TEXTS {
        make_name_last(rt, path)?;
    }
    Ok(())
}

fn read_whole(alloc: Global, locked: Locked) -> Result<Opened, Fault>
    ensures fresh { IfOk result (λ opened. IsFresh opened.log) }
    ensures read { IfOk result IsOpened }
{
    let disk = locked.read_from(alloc, 0)?;
    let opened = whole_of(alloc, disk)?;
    Ok(opened)
}

// The log that the disk has, from its head on.
fn whole_of(alloc: Global, disk: FileDisk) -> Result<Opened, Fault>
    ensures fresh { IfOk result (λ opened. IsFresh opened.log) }
    ensures read { IfOk result (IsWhole (bytes_of disk)) }
{
    let mut disk = disk;
    match read_log(alloc, &mut disk) {
        Ok(found) => in_hand(disk, found, 0),
        Err(fault) => Err(not_read(&disk, fault, 0)),
    }
}

fn read_new(alloc: Global, locked: Locked, resting: RestingLog) -> Result<Opened, Fault>
    ensures fresh { IfOk result (λ opened. IsFresh opened.log) }
    ensures read { IfOk result (IsReadOn resting.mark.digits) }
{
    let disk = locked.read_from(alloc, resting.place)?;
    let opened = tail_of(alloc, disk, resting.mark, resting.count)?;
    Ok(opened)
}

// The log that the disk has, after texts of which the last has the mark; `known` is their number.
fn tail_of(alloc: Global, disk: FileDisk, mark: Mark, known: u64) -> Result<Opened, Fault>
    ensures fresh { IfOk result (λ opened. IsFresh opened.log) }
    ensures read { IfOk result (IsTail mark.digits (bytes_of disk)) }
{
    let mut disk = disk;
    match read_tail(alloc, &mut disk, mark) {
        Ok(found) => in_hand(disk, found, known),
        Err(fault) => Err(not_read(&disk, fault, known)),
    }
}

// The log in hand, with what was read from the disk; `known` is the number of texts that were read before.
fn in_hand(disk: FileDisk, found: Texts, known: u64) -> Result<Opened, Fault>
    requires gate { HasGateAt found.gate (bytes_of disk) }
    requires settled { IsSettled (state_of disk) }
    ensures fresh { IfOk result (λ opened. IsFresh opened.log) }
    ensures handed { IfOk result (HandsOn (bytes_of disk) found) }
{
    let Texts { texts, gate, mark } = found;
    let log = from_gate(disk, gate, mark)?;
    let count = known.saturating_add(texts.len() as u64);
    Ok(Opened {
        log: OpenLog::of(log, count),
        texts,
    })
}

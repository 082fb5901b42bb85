// Creating a log, and folding one.
ghost use Rattle.std.specs.Prelude.{◌≡◌, [], drop, map, IfOk};
ghost use Rattle.base_devices.specs.States.{IsSettled};
ghost use Rattle.ws_file.specs.Files.{bytes_of, just_opened, state_of};
ghost use Rattle.ws_seal.specs.Logs.{HasGateAt};
ghost use Rattle.ws_log.specs.Held.{IsFresh, IsMadeOf};

use crate::faults::{Fault, not_written};
use crate::logs::{OpenLog, from_gate};
use std::path::Path;
use ws_file::{FileDisk, MadeFile, make_beside};
use ws_seal::{LogText, log_text};

/// Creates a log of the head and these texts in a new file at `path`. The log is written and synced beside it, then linked to its
/// name, and the folder is synced. The error is `Taken` if a file has the name. At `Ok` the log is in hand.
pub fn create(
    rt: &HostRuntime,
    path: &str,
    head: &[u8],
    texts: &[Vec<u8>],
) -> Result<OpenLog, Fault>
    ensures fresh { IfOk result IsFresh }
    ensures made { IfOk result (IsMadeOf head.now (map (λ v. v.items) texts.now)) }
{
    let (made, log) = made_log(rt, path, head, texts)?;
    made.publish(rt, path)?;
    Ok(log)
}

/// Puts a log of the head alone in place of the one in hand. It is written and synced beside it, then renamed, and the folder is
/// synced, so a crash leaves one log or the other. At `Ok` the new log is in hand. If the path is a link, the file that it leads
/// to is replaced.
pub fn fold(rt: &HostRuntime, path: &str, old: OpenLog, head: &[u8]) -> Result<OpenLog, Fault>
    ensures fresh { IfOk result IsFresh }
    ensures made { IfOk result (IsMadeOf head.now []) }
{
    match Path::new(path).canonicalize(rt) {
        Ok(file) => replaced(rt, file.as_str(), old, head),
        Err(_) => replaced(rt, path, old, head),
    }
}

// Replaces the file of this path. The path is no link, or the link itself would be replaced.
fn replaced(rt: &HostRuntime, path: &str, old: OpenLog, head: &[u8]) -> Result<OpenLog, Fault>
    ensures fresh { IfOk result IsFresh }
    ensures made { IfOk result (IsMadeOf head.now []) }
{
    let (made, log) = made_log(rt, path, head, &[])?;
    made.replace(rt, path)?;
    drop(old);
    Ok(log)
}

// A log in a file beside the path, synced.
fn made_log(
    rt: &HostRuntime,
    path: &str,
    head: &[u8],
    texts: &[Vec<u8>],
) -> Result<(MadeFile, OpenLog), Fault>
    ensures fresh { IfOk result (λ made. IsFresh made.1) }
    ensures made { IfOk result (λ made. IsMadeOf head.now (map (λ v. v.items) texts.now) made.1) }
{
    let text = log_text(rt.alloc(), head, texts)?;
    let (made, disk) = make_beside(rt, path)?;
    let count = (texts.len() as u64).saturating_add(1);
    match in_hand(disk, &text, count) {
        Ok(log) => Ok((made, log)),
        Err(fault) => {
            made.give_up(rt);
            Err(fault)
        }
    }
}

// The log of the text in hand, once an empty disk has it.
fn in_hand(disk: FileDisk, text: &LogText, count: u64) -> Result<OpenLog, Fault>
    requires empty { disk ≡ just_opened 0 [] }
    requires gate { HasGateAt text.now.gate text.now.bytes.items }
    ensures fresh { IfOk result IsFresh }
    ensures marked { IfOk result (λ log. log.mark ≡ text.now.mark.digits) }
    ensures rest { IfOk result (λ log.
        bytes_of log.disk ≡ drop text.now.gate text.now.bytes.items) }
{
    let disk = written(disk, &text.bytes)?;
    let log = from_gate(disk, text.gate, text.mark)?;
    Ok(OpenLog::of(log, count))
}

// The disk, once it has these bytes and no others, and nothing is pending; it was empty.
fn written(disk: FileDisk, bytes: &[u8]) -> Result<FileDisk, Fault>
    requires { disk ≡ just_opened 0 [] }
    ensures bytes { IfOk result (λ disk. bytes_of disk ≡ bytes.now) }
    ensures lasts { IfOk result (λ disk. IsSettled (state_of disk)) }
{
    let mut disk = disk;
    match base_roll::create(&mut disk, bytes) {
        Ok(()) => Ok(disk),
        Err(_) => Err(not_written(&disk)),
    }
}

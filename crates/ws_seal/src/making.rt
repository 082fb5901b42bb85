// The text of a new log.
ghost use Rattle.std.specs.Prelude.{◌≡◌, ◌++◌, ◌<◌, ◌^◌, ◌∷◌, [], length, map, IfOk, OnOk};
ghost use Rattle.base_roll.specs.Format.{AreShort, framed, opened, records, roll_text};
ghost use Rattle.ws_seal.specs.Logs.{HasGateAt, IsLogText, opening};
ghost use Rattle.ws_seal.specs.Seals.{last_mark, mark, payloads, sealed};

use crate::seals::{Mark, seal};
use base_roll::{PAYLOAD_LIMIT, push_frame, push_record};
use def_memory::Memory;
use std::alloc::{AllocFailed, Global};

/// Why the text of a log was not made.
#[derive(Clone, Copy, Debug, PartialEq, Eq)]
pub enum MakeFault {
    /// A payload would have this number of bytes, which is too large.
    TooLarge(u64),
    /// Memory ran out.
    Memory,
}

impl From<Memory> for MakeFault {
    fn from(_memory: Memory) -> MakeFault {
        MakeFault::Memory
    }
}

impl<T: Drop> From<AllocFailed<T>> for MakeFault {
    fn from(_error: AllocFailed<T>) -> MakeFault {
        MakeFault::Memory
    }
}

/// The bytes of a log, the place of its gate, and the mark of its last text.
#[derive(Drop)]
pub struct LogText {
    pub bytes: Vec<u8>,
    pub gate: usize,
    pub mark: Mark,
}

/// Makes the bytes of a log with this head and these texts.
pub fn log_text(alloc: Global, head: &[u8], texts: &[Vec<u8>]) -> Result<LogText, MakeFault>
    ensures made { IfOk result (λ made. IsLogText head.now (map (λ v. v.items) texts.now)
        made.bytes.items made.gate made.mark.digits) }
    ensures gate { IfOk result (λ made. HasGateAt made.gate made.bytes.items) }
{
    let mut bytes = Vec::new(alloc);
    let mut mark = push_head(alloc, &mut bytes, head)?;
    let mut rest = texts;
    'texts: while let [text, more @ ..] = rest {
        mark = push_text(alloc, &mut bytes, &mark, text)?;
        rest = more;
    }
    let gate = bytes.len();
    bytes.push(0)?;
    Ok(LogText { bytes, gate, mark })
}

// The payload of a text, and its mark. The length of the payload must fit 4 bytes.
fn short_seal(alloc: Global, before: &[u8], text: &[u8]) -> Result<(Vec<u8>, Mark), MakeFault>
    ensures payload { IfOk result (λ made. made.0.items ≡ sealed before.now text.now) }
    ensures marked { IfOk result (λ made. made.1.digits ≡ mark before.now text.now) }
    ensures short { IfOk result (λ made. length made.0.items < 2 ^ 32) }
{
    let (payload, mark) = seal(alloc, before, text)?;
    if payload.len() > PAYLOAD_LIMIT {
        return Err(MakeFault::TooLarge(payload.len() as u64));
    }
    Ok((payload, mark))
}

// Adds the frame of a head, and returns its mark.
fn push_head(alloc: Global, bytes: &mut Vec<u8>, head: &[u8]) -> Result<Mark, MakeFault>
    ensures short { OnOk result (length (sealed [] head.now) < 2 ^ 32) }
    ensures added { OnOk result (bytes.new.items ≡ bytes.old.items ++ opening head.now) }
    ensures marked { IfOk result (λ made. made.digits ≡ mark [] head.now) }
{
    let (payload, mark) = short_seal(alloc, &[], head)?;
    push_frame(bytes, &payload)?;
    Ok(mark)
}

// Adds the record of a text, and returns its mark.
fn push_text(
    alloc: Global,
    bytes: &mut Vec<u8>,
    before: &Mark,
    text: &[u8],
) -> Result<Mark, MakeFault>
    ensures short { OnOk result (length (sealed before.now.digits text.now) < 2 ^ 32) }
    ensures added { OnOk result (bytes.new.items ≡ bytes.old.items
        ++ opened (sealed before.now.digits text.now)) }
    ensures marked { IfOk result (λ made. made.digits ≡ mark before.now.digits text.now) }
{
    let (payload, mark) = short_seal(alloc, &before.digits, text)?;
    push_record(bytes, &payload)?;
    Ok(mark)
}

// Reading to the end, and writing whole texts.
ghost use Rattle.std.specs.Prelude.{◌≡◌, ℕ, ◌≤◌, IfOk, IfErr, OnOk, IsErrOf, vec_len};
ghost use Rattle.std.specs.Io.KnownBytes.{Appends, Consumes, IsAtEnd};
ghost use Rattle.base_devices.specs.Faults.{FailsByFault, Rose};
ghost use Rattle.base_devices.specs.Reading.{TookBefore};
ghost use Rattle.base_devices.specs.Writing.{TakesAllOrPrefix, TakesPrefix};
ghost use Rattle.base_devices.specs.declared.whole.ReadRefusal.TheVariants.{Memory};

use crate::{Failed, Sink, Source};
use std::alloc::{AllocError, Global};

/// Why an input was not read to its end.
#[derive(Clone, Copy, Debug, PartialEq, Eq)]
pub enum ReadRefusal {
    /// The source failed.
    ReadFault,
    /// The input has more bytes than the limit.
    TooLong,
    /// There was not enough memory for the input.
    Memory,
}

impl From<AllocError> for ReadRefusal {
    ghost from_gives = { λ _ refusal. refusal ≡ Memory };

    fn from(_error: AllocError) -> ReadRefusal {
        ReadRefusal::Memory
    }
}

/// A sink failed before it had taken all bytes.
#[derive(Clone, Copy, Debug, PartialEq, Eq)]
pub struct WriteFault;

impl From<Failed> for WriteFault {
    fn from(_failed: Failed) -> WriteFault {
        WriteFault
    }
}

// The most bytes that one read asks for.
const PIECE: usize = 16_384;

/// Reads to the end of the input, of at most `limit` bytes.
///
/// It returns `TooLong` exactly if it took more than `limit` bytes; then it took one more. Memory for a piece is taken before the
/// piece is read, so with `Memory` no more than the limit was taken.
pub fn read_all<S: Source>(
    alloc: Global,
    source: &mut S,
    limit: usize,
) -> Result<Vec<u8>, ReadRefusal>
    ensures bytes { IfOk result (λ all. Consumes (S.left source.old)
        (S.left source.new) all.items) }
    ensures end { OnOk result (IsAtEnd (S.left source.new)) }
    ensures short { IfOk result (λ all. vec_len all ≤ limit) }
    ensures refused { IfErr result (λ refusal.
        TookBefore refusal limit (S.left source.old) (S.left source.new)) }
    ensures later { S.fault_count source.old ≤ S.fault_count source.new }
    ensures fault { IsErrOf result ReadRefusal.ReadFault
        → Rose (S.fault_count source.old) (S.fault_count source.new) }
{
    let mut bytes = Vec::new(alloc);
    let mut buffer = [0u8; PIECE];
    while bytes.len() <= limit {
        let want = (limit - bytes.len()).min(PIECE - 1) + 1;
        bytes.reserve(want)?;
        let Ok(count) = source.take(&mut buffer[..want]) else {
            return Err(ReadRefusal::ReadFault);
        };
        if count == 0 {
            return Ok(bytes);
        }
        bytes.extend_from_slice(&buffer[..count]).unwrap();
    }
    Err(ReadRefusal::TooLong)
}

/// Writes all bytes. Each `put` is handed all that are left.
pub fn write_all<O: Sink>(sink: &mut O, bytes: &[u8]) -> Result<(), WriteFault>
    ensures ok { OnOk result (Appends (O.taken sink.old) (O.taken sink.new) bytes.now) }
    ensures all_or_prefix { TakesAllOrPrefix (O.taken sink.old) (O.taken sink.new)
        (O.fault_count sink.old) (O.fault_count sink.new) bytes.now }
    ensures prefix { TakesPrefix (O.taken sink.old) (O.taken sink.new) bytes.now }
    ensures cause { FailsByFault (O.fault_count sink.old) (O.fault_count sink.new) result }
{
    let mut at = 0;
    while at < bytes.len() {
        at += sink.put(&bytes[at..])?;
    }
    Ok(())
}

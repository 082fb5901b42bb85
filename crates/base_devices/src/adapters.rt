// A source over any reader of std, and a sink over any writer.
ghost use Rattle.std.specs.Prelude.{◌≡◌, ◌<◌, length, IfOk};
ghost use Rattle.std.specs.Io.{ReadsAtMost, WritesAtMost};
ghost use Rattle.std.specs.Io.KnownBytes.{ReadConsumes, WriteAppends};
ghost use Rattle.base_devices.specs.Faults.{CountsFaults, FailsByFault};

use crate::{Failed, Sink, Source};
use std::io::{Read, Write};
use std::marker::Model;

/// A source over a reader. Contracts know its bytes if they know the reader's: those of a reader in memory, but not those of a
/// file or a stream.
#[derive(Drop)]
pub struct StdSource<R: Read + Drop> {
    reader: R,
    faults: u64,
}

impl<R: Read + Drop> Model for StdSource<R> {
    ghost use Rattle.base_devices.specs.Adapters.{Adapter};

    ghost Value = { Adapter R };

    ghost view = { λ s. record { stream = s.reader; faults = s.faults } };
}

impl<R: Read + Drop> StdSource<R> {
    /// A source over `reader` that has not failed.
    pub fn new(reader: R) -> StdSource<R>
        ensures { result ≡ record { stream = reader; faults = 0 } }
    {
        StdSource { reader, faults: 0 }
    }
}

impl<R: Read + Drop> Source for StdSource<R> {
    ghost left = { λ s. R.remaining s.stream };

    ghost fault_count = { λ s. s.faults };

    /// Reads once. Each error of the reader is a fault.
    fn take(&mut self, into: &mut [u8]) -> Result<usize, Failed>
        ensures bound { ReadsAtMost result into.new }
        ensures bytes { ReadConsumes (R.remaining self.old.stream) (R.remaining self.new.stream)
            result into.new }
        ensures cause { FailsByFault self.old.faults self.new.faults result }
        ensures faults { CountsFaults self.old.faults self.new.faults result }
    {
        match self.reader.read(into) {
            Ok(count) => Ok(count),
            Err(_) => {
                self.faults = self.faults.saturating_add(1);
                Err(Failed)
            }
        }
    }

    fn faults(&self) -> u64 {
        self.faults
    }
}

/// A sink over a writer. Contracts know its bytes if they know the writer's: those of a writer in memory, but not those of a file
/// or a stream.
#[derive(Drop)]
pub struct StdSink<W: Write + Drop> {
    writer: W,
    faults: u64,
}

impl<W: Write + Drop> Model for StdSink<W> {
    ghost use Rattle.base_devices.specs.Adapters.{Adapter};

    ghost Value = { Adapter W };

    ghost view = { λ s. record { stream = s.writer; faults = s.faults } };
}

impl<W: Write + Drop> StdSink<W> {
    /// A sink over `writer` that has not failed.
    pub fn new(writer: W) -> StdSink<W>
        ensures { result ≡ record { stream = writer; faults = 0 } }
    {
        StdSink { writer, faults: 0 }
    }
}

impl<W: Write + Drop> Sink for StdSink<W> {
    ghost taken = { λ s. W.contents s.stream };

    ghost fault_count = { λ s. s.faults };

    /// Writes once. Each error of the writer is a fault, and so is a write that takes nothing of a piece that is not empty.
    fn put(&mut self, from: &[u8]) -> Result<usize, Failed>
        ensures bound { WritesAtMost result from.now }
        ensures some { 0 < length from.now → IfOk result (λ count. 0 < count) }
        ensures bytes { WriteAppends (W.contents self.old.stream) (W.contents self.new.stream)
            result from.now }
        ensures cause { FailsByFault self.old.faults self.new.faults result }
        ensures faults { CountsFaults self.old.faults self.new.faults result }
    {
        match self.writer.write(from) {
            Ok(count) if count > 0 || from.is_empty() => Ok(count),
            _ => {
                self.faults = self.faults.saturating_add(1);
                Err(Failed)
            }
        }
    }

    fn faults(&self) -> u64 {
        self.faults
    }
}

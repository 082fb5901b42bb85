// Sources and sinks of bytes.
ghost use Rattle.std.specs.Prelude.{◌≡◌, ℕ, ◌<◌, List, Option, length, IfOk};
ghost use Rattle.std.specs.Io.{ReadsAtMost, WritesAtMost};
ghost use Rattle.std.specs.Io.KnownBytes.{ReadConsumes, WriteAppends};
ghost use Rattle.base_devices.specs.Faults.{FailsByFault};

/// A source or a sink failed at a call. Its bytes are as before that call, and it has counted the fault.
#[derive(Clone, Copy, Debug, PartialEq, Eq)]
pub struct Failed;

/// A source of bytes. It gives them in pieces of any size, and may fail at any call.
pub trait Source {
    /// The bytes that are left, if they are known.
    ghost left: { Self → Option (List ℕ) };

    /// The number of times that the source has failed. The count stops at the last value of a `u64`.
    ghost fault_count: { Self → ℕ };

    /// Puts the next bytes at the front of `into` and returns their number, at most its length. If `into` is not empty, it
    /// returns 0 exactly at the end of the input. After `Failed` the same bytes are left.
    fn take(&mut self, into: &mut [u8]) -> Result<usize, Failed>
        ensures bound { ReadsAtMost result into.new }
        ensures bytes { ReadConsumes (left self.old) (left self.new) result into.new }
        ensures cause { FailsByFault (fault_count self.old) (fault_count self.new) result };

    /// The number of times that the source has failed.
    fn faults(&self) -> u64
        ensures { result ≡ fault_count self.now };
}

/// A sink of bytes. It takes them in pieces of any size, and may fail at any call.
pub trait Sink {
    /// The bytes taken so far, if they are known.
    ghost taken: { Self → Option (List ℕ) };

    /// The number of times that the sink has failed. The count stops at the last value of a `u64`.
    ghost fault_count: { Self → ℕ };

    /// Takes bytes from the front of `from` and returns their number, at least 1 unless `from` is empty. After `Failed` it has
    /// taken no more than before.
    fn put(&mut self, from: &[u8]) -> Result<usize, Failed>
        ensures bound { WritesAtMost result from.now }
        ensures some { 0 < length from.now → IfOk result (λ count. 0 < count) }
        ensures bytes { WriteAppends (taken self.old) (taken self.new) result from.now }
        ensures cause { FailsByFault (fault_count self.old) (fault_count self.new) result };

    /// The number of times that the sink has failed.
    fn faults(&self) -> u64
        ensures { result ≡ fault_count self.now };
}

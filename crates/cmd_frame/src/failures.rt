// The failures that a run may have with any command.
ghost use Rattle.std.specs.Prelude.{◌≡◌};
ghost use Rattle.cmd_frame.specs.Statuses.{line_of, of_read_refusal};
ghost use Rattle.cmd_frame.specs.declared.failures.Failure.TheVariants.{OutOfMemory};

use base_devices::ReadRefusal;
use def_memory::Memory;

/// Why a run fails, with any command: its words, its devices, its memory, or the length of its input.
#[derive(Clone, Copy, Debug, PartialEq, Eq)]
pub enum Failure {
    /// The words are refused.
    Usage,
    /// The source failed.
    ReadFault,
    /// `out` failed.
    WriteFault,
    /// Memory ran out.
    OutOfMemory,
    /// The input is longer than the limit.
    TooLong,
}

impl Failure {
    /// The line for `err` that names the failure, with its line feed.
    pub fn line(self) -> &'static [u8]
        ensures { result.now ≡ line_of self }
    {
        match self {
            Failure::Usage => b"youtopia: usage: youtopia COMMAND [OPTIONS]\n",
            Failure::ReadFault => b"youtopia: read fault\n",
            Failure::WriteFault => b"youtopia: write fault\n",
            Failure::OutOfMemory => b"youtopia: out of memory\n",
            Failure::TooLong => b"youtopia: input longer than 16777216 bytes\n",
        }
    }
}

impl From<ReadRefusal> for Failure {
    ghost from_gives = { λ refusal failure. failure ≡ of_read_refusal refusal };

    fn from(refusal: ReadRefusal) -> Failure {
        match refusal {
            ReadRefusal::ReadFault => Failure::ReadFault,
            ReadRefusal::TooLong => Failure::TooLong,
            ReadRefusal::Memory => Failure::OutOfMemory,
        }
    }
}

impl From<Memory> for Failure {
    ghost from_gives = { λ _ failure. failure ≡ OutOfMemory };

    fn from(_memory: Memory) -> Failure {
        Failure::OutOfMemory
    }
}

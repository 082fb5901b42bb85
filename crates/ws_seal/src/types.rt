// The texts that are read from a log, and the faults of reading.
use crate::seals::Mark;
use base_devices::DiskRefusal;
use def_memory::Memory;

/// The texts that were read, the place of the gate after them, and the mark of the last text.
#[derive(Drop)]
pub struct Texts {
    pub texts: Vec<Vec<u8>>,
    pub gate: usize,
    pub mark: Mark,
}

/// The damaged part of a log.
#[derive(Clone, Copy, Debug, PartialEq, Eq)]
pub enum Damage {
    /// The gate at this place: it is missing, or open without a whole record after it, or it hides records. 0: no whole head.
    At(u64),
    /// The record of this number is not as it was written. The head has the number 0; after a mark the first record has it.
    NotAsWritten(u64),
}

/// Why a log was not read. The bytes of the disk are unchanged.
#[derive(Clone, Copy, Debug, PartialEq, Eq)]
pub enum ReadFault {
    /// The disk failed.
    DiskFault,
    /// The bytes are not a log.
    Damaged(Damage),
    /// Memory ran out.
    Memory,
}

impl From<DiskRefusal> for ReadFault {
    ghost use Rattle.std.specs.Prelude.{◌≡◌};
    ghost use Rattle.ws_seal.specs.Answers.{read_fault};

    ghost from_gives = { λ refusal fault. fault ≡ read_fault refusal };

    fn from(refusal: DiskRefusal) -> ReadFault {
        match refusal {
            DiskRefusal::Failed => ReadFault::DiskFault,
            DiskRefusal::Memory => ReadFault::Memory,
        }
    }
}

impl From<Memory> for ReadFault {
    ghost use Rattle.std.specs.Prelude.{◌≡◌};
    ghost use Rattle.ws_seal.specs.declared.types.ReadFault.TheVariants.{Memory};

    ghost from_gives = { λ _ fault. fault ≡ Memory };

    fn from(_memory: Memory) -> ReadFault {
        ReadFault::Memory
    }
}

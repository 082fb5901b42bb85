// What is kept of a journal, what goes into it, what comes out of it, and what may go wrong.

use base_devices::DiskRefusal;
use base_roll::Roll;
use base_types::{Memory, TupleList, WriteList};
use lang_session::Session;
use std::marker::Model;

/// What the program keeps of a journal on a disk: the place of its gate, and how many commits stand before it.
#[derive(Debug, Drop)]
pub struct Journal {
    pub(crate) gate: usize,
    pub(crate) commits: u32,
}

impl Model for Journal {
    ghost use Rattle.run_journal.specs.Journals.{Hold};

    ghost Value = { Hold };

    ghost view = { λ j. record { gate = j.gate; commits = j.commits } };
}

impl Journal {
    ghost use Rattle.std.specs.Prelude.{◌≡◌};

    // The roll of its commits.
    pub(crate) fn roll(&self) -> Roll
        ensures { result ≡ record { gate = self.now.gate } }
    {
        Roll::with_gate_at(self.gate)
    }
}

/// What an update commits: its number, and its writes in order.
#[derive(Debug, Drop)]
pub struct Commit {
    pub number: u32,
    pub writes: WriteList,
}

/// What a journal stands for: its session, how many commits it has, the repository that they make of the session's base, and
/// what the next append needs.
#[derive(Drop)]
pub struct Recovered {
    pub session: Session,
    pub commits: u32,
    pub repository: TupleList,
    pub journal: Journal,
}

/// Why no journal was made. After `DiskFault` or `Memory` the disk must be given up.
#[derive(Clone, Copy, Debug, PartialEq, Eq)]
pub enum CreateFault {
    /// The session's printed form has this number of bytes, which is too many. The disk is unchanged.
    TooLarge(u64),
    /// The disk failed.
    DiskFault,
    /// There was no memory for it.
    Memory,
}

/// Why a commit is not acknowledged. After `DiskFault` or `DiskMemory` the commit may be in the journal or not, and the journal
/// must be opened again by `recover`.
#[derive(Debug, Drop)]
pub enum AppendFault {
    /// The text of the commit has this number of bytes, which is too many. The journal and the disk are unchanged.
    TooLarge(Journal, u64),
    /// The disk failed.
    DiskFault,
    /// There was no memory for a call of the disk.
    DiskMemory,
    /// There was no memory before the first call of the disk. The journal and the disk are unchanged.
    Memory(Journal),
}

/// Why a journal was not recovered. The disk reads as before.
#[derive(Clone, Copy, Debug, PartialEq, Eq)]
pub enum RecoverFault {
    /// The disk failed.
    DiskFault,
    /// The bytes do not begin with a journal: they are damaged at this place.
    Damaged(u64),
    /// There was no memory for it.
    Memory,
}

impl From<Memory> for CreateFault {
    ghost use Rattle.std.specs.Prelude.{◌≡◌};
    ghost use Rattle.run_journal.specs.declared.journals.CreateFault.TheVariants.{Memory};

    ghost from_gives = { λ _ fault. fault ≡ Memory };

    fn from(_memory: Memory) -> CreateFault {
        CreateFault::Memory
    }
}

impl From<DiskRefusal> for RecoverFault {
    ghost use Rattle.std.specs.Prelude.{◌≡◌};
    ghost use Rattle.run_journal.specs.Faults.{recover_fault};

    ghost from_gives = { λ refusal fault. fault ≡ recover_fault refusal };

    fn from(refusal: DiskRefusal) -> RecoverFault {
        match refusal {
            DiskRefusal::Failed => RecoverFault::DiskFault,
            DiskRefusal::Memory => RecoverFault::Memory,
        }
    }
}

impl From<Memory> for RecoverFault {
    ghost use Rattle.std.specs.Prelude.{◌≡◌};
    ghost use Rattle.run_journal.specs.declared.journals.RecoverFault.TheVariants.{Memory};

    ghost from_gives = { λ _ fault. fault ≡ Memory };

    fn from(_memory: Memory) -> RecoverFault {
        RecoverFault::Memory
    }
}

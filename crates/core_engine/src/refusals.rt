//! Why a call of a core changed nothing.
ghost use Rattle.std.specs.Prelude.{◌≡◌};
ghost use Rattle.core_engine.specs.declared.refusals.OpenRefusal.TheVariants.{Memory as WantOfMemory};

use base_types::Memory;
use core_entries::Standing;
use run_base::Violated;

/// Why no core was opened on a session.
#[derive(Drop)]
pub enum OpenRefusal<'s> {
    /// The base of the session violates this mapping.
    Violates(Violated<'s>),
    /// There was no memory for it.
    Memory,
}

impl<'s> From<Memory> for OpenRefusal<'s> {
    ghost from_gives = { λ _ refusal. refusal ≡ WantOfMemory };

    fn from(_: Memory) -> OpenRefusal<'s> {
        OpenRefusal::Memory
    }
}

/// Why a step was not made.
#[derive(Clone, Copy, Debug)]
pub enum StepRefusal {
    /// There is no update of this number.
    NoSuchUpdate,
    /// The update is not ready.
    NotReady(Standing),
    /// There was no memory for it.
    Memory,
}

/// Why an answer was not delivered.
#[derive(Clone, Copy, Debug)]
pub enum DeliverRefusal {
    /// There is no update of this number.
    NoSuchUpdate,
    /// The update does not wait for an answer.
    NotPending(Standing),
    /// No recorded answer waits for it.
    NoAnswer,
    /// There was no memory for it.
    Memory,
}

/// Why an answer by a person was refused.
#[derive(Clone, Copy, Debug)]
pub enum AnswerRefusal {
    /// There is no update of this number.
    NoSuchUpdate,
    /// The update waits for no answer.
    NotPaused(Standing),
    /// The choice does not answer its question.
    Misfit,
    /// There was no memory for it.
    Memory,
}

/// Why an update was not withdrawn.
#[derive(Clone, Copy, Debug)]
pub enum WithdrawRefusal {
    /// There is no update of this number.
    NoSuchUpdate,
    /// The update is committed, as are all up to this number.
    Committed(u32),
    /// It is withdrawn already.
    Withdrawn,
    /// There was no memory for it.
    Memory,
}

/// Why an update was not admitted.
#[derive(Clone, Copy, Debug)]
pub enum AdmitRefusal {
    /// There are 1,000 updates.
    Full,
    /// It does not fit the relations of the session, or names a null of no lower update, or puts a mapping in force.
    Unfit,
    /// There was no memory for it.
    Memory,
}

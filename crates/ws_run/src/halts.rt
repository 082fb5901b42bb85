//! Why an update does not stand.
ghost use Rattle.std.specs.Prelude.{◌≡◌};
ghost use Rattle.ws_run.specs.declared.halts.Halt.TheVariants.{Memory as WantOfMemory};

use base_types::{List, Memory, Null, TupleList, WriteList};
use ws_lines::{Asked, Source};

/// A question of an update, by names. `is_positive` says whether it asks which of the candidates the wanted tuple is, or which of
/// them go. `since` is the image of the mapping's left side that made it ask; `so_far` and `taken` are what the update wrote and
/// the number of answers that it took before the question.
#[derive(Drop)]
pub struct Question {
    pub asked: Asked,
    pub is_positive: bool,
    pub candidates: TupleList,
    pub since: TupleList,
    pub so_far: WriteList,
    pub taken: u32,
}

/// The number of tuples that a run put because of this source.
#[derive(Clone, Copy)]
pub struct Made {
    pub source: Source,
    pub tuples: u32,
}

/// What a run made; each source stands here at most once.
pub type MadeList = List<Made>;

/// Why an update does not stand: it asks; it names an unknown that is not there; it needs more steps than it may make; the
/// mapping that it puts in force has violations; or its mapping is gone.
#[derive(Drop)]
pub enum Reason {
    Asks(Question),
    NotThere(Null),
    TooLong(MadeList),
    Violated(u16),
    Gone(u16),
}

/// What ends a run before its end: want of memory, or a reason.
#[derive(Drop)]
pub enum Halt {
    Memory,
    Left(Reason),
}

impl From<Memory> for Halt {
    ghost from_gives = { λ _ halt. halt ≡ WantOfMemory };

    fn from(_memory: Memory) -> Halt {
        Halt::Memory
    }
}

impl<T: Drop> From<(T, Memory)> for Halt {
    ghost from_gives = { λ _ halt. halt ≡ WantOfMemory };

    fn from(_refused: (T, Memory)) -> Halt {
        Halt::Memory
    }
}

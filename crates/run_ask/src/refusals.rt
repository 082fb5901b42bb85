//! Why a query does not fit the relations.

ghost use Rattle.std.specs.Prelude.{◌≡◌};
ghost use Rattle.run_ask.specs.declared.refusals.AskRefusal.TheVariants.{Memory as WantOfMemory};

use base_types::{Memory, Name};

/// Why a query does not fit the relations of a schema.
#[derive(Debug, Drop)]
pub enum AskRefusal {
    /// No relation has this name.
    UnknownRelation(Name),
    /// The relation has `expected` columns, and is used with `found`.
    Arity {
        name: Name,
        expected: u16,
        found: u64,
    },
    /// There was no memory for it.
    Memory,
}

impl From<Memory> for AskRefusal {
    ghost from_gives = { λ _ refusal. refusal ≡ WantOfMemory };

    fn from(_: Memory) -> Self {
        AskRefusal::Memory
    }
}

/// For a call that hands its argument back beside `Memory`, if the caller has no use for it any more.
impl<T: Drop> From<(T, Memory)> for AskRefusal {
    ghost from_gives = { λ _ refusal. refusal ≡ WantOfMemory };

    fn from(_: (T, Memory)) -> Self {
        AskRefusal::Memory
    }
}

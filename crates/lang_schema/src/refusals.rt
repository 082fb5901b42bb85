//! Why a relation or a mapping is refused.

ghost use Rattle.std.specs.Prelude.{◌≡◌};
ghost use Rattle.lang_schema.specs.declared.refusals.SchemaRefusal.TheVariants.{Memory as WantOfMemory};

use base_types::Name;
use def_language::Which;
use def_memory::Memory;
use std::alloc::{AllocError, AllocFailed};

/// Why a relation or a mapping is refused.
#[derive(Debug, Drop)]
pub enum SchemaRefusal {
    /// No relation has this name.
    UnknownRelation(Name),
    /// The relation has `expected` columns, and is used with `found`.
    Arity {
        name: Name,
        expected: u16,
        found: u64,
    },
    /// A side of a mapping has no atom.
    EmptySide,
    /// A side of a mapping has more than 8 atoms.
    TooManyAtoms,
    /// A relation has this name already.
    DuplicateName(Name),
    /// The number of columns is not from 1 to 8, or there is no room for one more relation.
    Limit(Which),
    /// There was not enough memory.
    Memory,
}

impl From<Memory> for SchemaRefusal {
    ghost from_gives = { λ _ refusal. refusal ≡ WantOfMemory };

    fn from(_: Memory) -> Self {
        SchemaRefusal::Memory
    }
}

impl From<AllocError> for SchemaRefusal {
    ghost from_gives = { λ _ refusal. refusal ≡ WantOfMemory };

    fn from(_: AllocError) -> Self {
        SchemaRefusal::Memory
    }
}

impl<T: Drop> From<AllocFailed<T>> for SchemaRefusal {
    ghost from_gives = { λ _ refusal. refusal ≡ WantOfMemory };

    fn from(_: AllocFailed<T>) -> Self {
        SchemaRefusal::Memory
    }
}

/// The refusal of a call that hands its argument back with `Memory`, if the caller has no more use for the argument.
impl<T: Drop> From<(T, Memory)> for SchemaRefusal {
    ghost from_gives = { λ _ refusal. refusal ≡ WantOfMemory };

    fn from(_: (T, Memory)) -> Self {
        SchemaRefusal::Memory
    }
}

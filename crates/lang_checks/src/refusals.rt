//! Why a statement is not taken.

ghost use Rattle.std.specs.Prelude.{◌≡◌};
ghost use Rattle.lang_schema.specs.declared.refusals.SchemaRefusal.TheVariants.{Limit, Memory as WantOfMemory};
ghost use Rattle.lang_checks.specs.declared.refusals.TakeRefusal.TheVariants.{Schema};

use base_types::Name;
use def_memory::Memory;
use lang_schema::{SchemaRefusal, Which};
use std::alloc::AllocError;

/// Why a statement is not taken.
#[derive(Debug, Drop)]
pub enum TakeRefusal {
    /// A name is taken, a limit is reached, or a fact or a mapping does not fit the relations; or there was not enough memory,
    /// `SchemaRefusal::Memory`.
    Schema(SchemaRefusal),
    /// With the mapping of this name the mappings have a plain cycle.
    PlainCycle(Name),
    /// No update has this label.
    UnknownLabel(Name),
    /// A null comes from this update, which is not below the present one.
    NullNotBelow { update: u32, place: u32 },
}

impl From<SchemaRefusal> for TakeRefusal {
    ghost from_gives = { λ refused refusal. refusal ≡ Schema refused };

    fn from(refused: SchemaRefusal) -> Self {
        TakeRefusal::Schema(refused)
    }
}

impl From<Memory> for TakeRefusal {
    ghost from_gives = { λ _ refusal. refusal ≡ Schema WantOfMemory };

    fn from(_: Memory) -> Self {
        TakeRefusal::Schema(SchemaRefusal::Memory)
    }
}

impl From<AllocError> for TakeRefusal {
    ghost from_gives = { λ _ refusal. refusal ≡ Schema WantOfMemory };

    fn from(_: AllocError) -> Self {
        TakeRefusal::Schema(SchemaRefusal::Memory)
    }
}

/// The refusal of a call that hands its argument back with `Memory`, if the caller has no more use for the argument.
impl<T: Drop> From<(T, Memory)> for TakeRefusal {
    ghost from_gives = { λ _ refusal. refusal ≡ Schema WantOfMemory };

    fn from(_: (T, Memory)) -> Self {
        TakeRefusal::Schema(SchemaRefusal::Memory)
    }
}

/// The refusal for a limit that is reached.
pub(crate) fn limit(which: Which) -> TakeRefusal
    ensures { result ≡ Schema (Limit which) }
{
    TakeRefusal::Schema(SchemaRefusal::Limit(which))
}

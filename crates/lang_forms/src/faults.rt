//! Why words have no form.

ghost use Rattle.std.specs.Prelude.{◌≡◌};
ghost use Rattle.lang_forms.specs.declared.faults.FormRefusal.TheVariants.{Expected, Memory as WantOfMemory};

use def_language::Wanted;
use def_memory::Memory;
use std::alloc::{AllocError, AllocFailed};

/// Why words have no form.
#[derive(Clone, Copy, Debug, PartialEq, Eq)]
pub enum FormRefusal {
    /// The line is the first one, and is not a header.
    BadHeader,
    /// This is missing at the first word that does not fit.
    Expected(Wanted),
    /// There was not enough memory.
    Memory,
}

impl From<Memory> for FormRefusal {
    ghost from_gives = { λ _ refusal. refusal ≡ WantOfMemory };

    fn from(_: Memory) -> Self {
        FormRefusal::Memory
    }
}

impl From<AllocError> for FormRefusal {
    ghost from_gives = { λ _ refusal. refusal ≡ WantOfMemory };

    fn from(_: AllocError) -> Self {
        FormRefusal::Memory
    }
}

impl<T: Drop> From<AllocFailed<T>> for FormRefusal {
    ghost from_gives = { λ _ refusal. refusal ≡ WantOfMemory };

    fn from(_: AllocFailed<T>) -> Self {
        FormRefusal::Memory
    }
}

impl<T: Drop> From<(T, Memory)> for FormRefusal {
    ghost from_gives = { λ _ refusal. refusal ≡ WantOfMemory };

    fn from(_: (T, Memory)) -> Self {
        FormRefusal::Memory
    }
}

/// The refusal for this missing part.
pub(crate) fn wants(wanted: Wanted) -> FormRefusal
    ensures { result ≡ Expected wanted }
{
    FormRefusal::Expected(wanted)
}

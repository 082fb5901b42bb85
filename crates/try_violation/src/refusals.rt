//! Why a case is refused.
use def_memory::Memory;
use std::alloc::{AllocError, AllocFailed};
use std::num::ParseIntError;
use thiserror::Error;

/// Why a case is refused.
#[derive(Clone, Copy, Debug, PartialEq, Eq, Error)]
pub enum CaseRefusal {
    /// An item of the line is not spelled as it should be.
    #[error("an item is not spelled as it should be")]
    Spelling,
    /// There was not enough memory.
    #[error("out of memory")]
    Memory,
}

impl From<ParseIntError> for CaseRefusal {
    fn from(_: ParseIntError) -> CaseRefusal {
        CaseRefusal::Spelling
    }
}

impl From<Memory> for CaseRefusal {
    fn from(_: Memory) -> CaseRefusal {
        CaseRefusal::Memory
    }
}

impl From<AllocError> for CaseRefusal {
    fn from(_: AllocError) -> CaseRefusal {
        CaseRefusal::Memory
    }
}

impl<T: Drop> From<AllocFailed<T>> for CaseRefusal {
    fn from(_: AllocFailed<T>) -> CaseRefusal {
        CaseRefusal::Memory
    }
}

/// For a call that gives its argument back with `Memory`, if the caller has no more use for it.
impl<T: Drop> From<(T, Memory)> for CaseRefusal {
    fn from(_: (T, Memory)) -> CaseRefusal {
        CaseRefusal::Memory
    }
}

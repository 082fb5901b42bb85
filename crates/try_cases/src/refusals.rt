//! Why a case is refused.
use base_devices::WriteFault;
use def_memory::Memory;
use lang_forms::FormRefusal;
use lang_lex::LexRefusal;
use lang_reader::ReadFailure;
use std::alloc::{AllocError, AllocFailed};
use std::num::ParseIntError;
use std::str::Utf8Error;
use thiserror::Error;

/// Why a case is refused.
#[derive(Clone, Copy, Debug, PartialEq, Eq, Error)]
pub enum CaseRefusal {
    /// A line of the case is not spelled as it should be.
    #[error("a line is not spelled as it should be")]
    Spelling,
    /// The output did not take the whole text.
    #[error("write fault")]
    Output,
    /// The base of the session violates a mapping.
    #[error("the base violates a mapping")]
    Base,
    /// The calls of the case have no end.
    #[error("the calls have no end")]
    Endless,
    /// There was not enough memory.
    #[error("out of memory")]
    Memory,
}

impl From<ParseIntError> for CaseRefusal {
    fn from(_: ParseIntError) -> CaseRefusal {
        CaseRefusal::Spelling
    }
}

impl From<Utf8Error> for CaseRefusal {
    fn from(_: Utf8Error) -> CaseRefusal {
        CaseRefusal::Spelling
    }
}

impl From<LexRefusal> for CaseRefusal {
    fn from(_: LexRefusal) -> CaseRefusal {
        CaseRefusal::Spelling
    }
}

impl From<FormRefusal> for CaseRefusal {
    fn from(refusal: FormRefusal) -> CaseRefusal {
        match refusal {
            FormRefusal::Memory => CaseRefusal::Memory,
            _ => CaseRefusal::Spelling,
        }
    }
}

impl From<ReadFailure> for CaseRefusal {
    fn from(failure: ReadFailure) -> CaseRefusal {
        match failure {
            ReadFailure::Memory => CaseRefusal::Memory,
            ReadFailure::Fault(_) => CaseRefusal::Spelling,
        }
    }
}

impl From<WriteFault> for CaseRefusal {
    fn from(_: WriteFault) -> CaseRefusal {
        CaseRefusal::Output
    }
}

impl From<Memory> for CaseRefusal {
    fn from(_: Memory) -> CaseRefusal {
        CaseRefusal::Memory
    }
}

impl From<AllocError> for CaseRefusal {
    fn from(_: AllocError) -> CaseRefusal {
        CaseRefusal::Memory
    }
}

impl<T: Drop> From<AllocFailed<T>> for CaseRefusal {
    fn from(_: AllocFailed<T>) -> CaseRefusal {
        CaseRefusal::Memory
    }
}

/// For a call that gives its argument back with `Memory`, if the caller has no more use for it.
impl<T: Drop> From<(T, Memory)> for CaseRefusal {
    fn from(_: (T, Memory)) -> CaseRefusal {
        CaseRefusal::Memory
    }
}

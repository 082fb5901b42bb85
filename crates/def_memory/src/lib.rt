//! Want of memory: the error that all calls which take memory share.
#![tactic(auto)]

use std::alloc::{AllocError, AllocFailed};
use thiserror::Error;

/// Want of memory: the allocator had no room for what the call needed.
///
/// Any call that takes memory may return it, and no contract says when. The call's contract says what holds after it; usually the
/// object is as it was before the call.
#[derive(Clone, Copy, Debug, PartialEq, Eq, Error)]
#[error("out of memory")]
pub struct Memory;

impl From<AllocError> for Memory {
    fn from(_error: AllocError) -> Memory {
        Memory
    }
}

impl<T: Drop> From<AllocFailed<T>> for Memory {
    fn from(_error: AllocFailed<T>) -> Memory {
        Memory
    }
}

/// The error of a call that hands its argument back with `Memory`, if the caller has no more use for the argument.
impl<T: Drop> From<(T, Memory)> for Memory {
    fn from(_refused: (T, Memory)) -> Memory {
        Memory
    }
}

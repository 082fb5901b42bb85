// The faults of opening, making and naming a file.
use base_devices::{DiskRefusal, Memory};
use std::alloc::{AllocError, AllocFailed};
use std::io;

/// Why a file was not opened, locked, read, made or named.
#[derive(Clone, Copy, Debug)]
pub enum OpenFault {
    /// No file has the name.
    Absent,
    /// A file has the name already. That file is unchanged.
    Taken,
    /// The file cannot be opened or read.
    Unreadable(io::Error),
    /// The file or its folder cannot be written: the file cannot be opened for writing, made, named or synced.
    Unwritable(io::Error),
    /// The system refused the lock, or the clock that limits the wait for it.
    NotLocked(io::Error),
    /// Other processes held the lock during the whole wait, or gave the name to other files again and again.
    InUse,
    /// Memory ran out.
    Memory,
}

impl From<Memory> for OpenFault {
    fn from(_memory: Memory) -> OpenFault {
        OpenFault::Memory
    }
}

impl From<AllocError> for OpenFault {
    fn from(_error: AllocError) -> OpenFault {
        OpenFault::Memory
    }
}

impl<T: Drop> From<AllocFailed<T>> for OpenFault {
    fn from(_error: AllocFailed<T>) -> OpenFault {
        OpenFault::Memory
    }
}

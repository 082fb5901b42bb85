// Why a call on a file's log has no answer.
use def_memory::Memory;
use std::alloc::Global;
use std::io;
use std::io::ErrorKind;
use ws_file::{FileDisk, OpenFault};
use ws_seal::{AppendFault, Damage, MakeFault, ReadFault};

/// Why a call on a file's log has no answer.
#[derive(Clone, Copy, Debug)]
pub enum Fault {
    /// No file has the name.
    Absent,
    /// A file has the name already. It is as it was.
    Taken,
    /// The file cannot be opened or read.
    Unreadable(io::Error),
    /// The system refused the lock.
    NotLocked(io::Error),
    /// Other processes held the file all the time.
    InUse,
    /// The file cannot be written. A text that was being appended may be there or not.
    Unwritable(io::Error),
    /// The file is damaged.
    Damaged(Damage),
    /// The text is too large; this is its number of bytes. The log is as it was.
    TooLarge(u64),
    /// Memory ran out. A text that was being appended may be there or not.
    Memory,
}

impl From<Memory> for Fault {
    fn from(_memory: Memory) -> Fault {
        Fault::Memory
    }
}

impl From<OpenFault> for Fault {
    fn from(fault: OpenFault) -> Fault {
        match fault {
            OpenFault::Absent => Fault::Absent,
            OpenFault::Taken => Fault::Taken,
            OpenFault::Unreadable(error) => Fault::Unreadable(error),
            OpenFault::Unwritable(error) => Fault::Unwritable(error),
            OpenFault::NotLocked(error) => Fault::NotLocked(error),
            OpenFault::InUse => Fault::InUse,
            OpenFault::Memory => Fault::Memory,
        }
    }
}

impl From<MakeFault> for Fault {
    fn from(fault: MakeFault) -> Fault {
        match fault {
            MakeFault::TooLarge(size) => Fault::TooLarge(size),
            MakeFault::Memory => Fault::Memory,
        }
    }
}

// Why the disk failed.
fn cause(disk: &FileDisk) -> io::Error {
    disk.reason().unwrap_or(io::Error::from(ErrorKind::Other))
}

/// The fault of a disk that could not be read; `known` is the number of texts that were read before, up to the disk's base.
pub(crate) fn not_read(disk: &FileDisk, fault: ReadFault, known: u64) -> Fault {
    match fault {
        ReadFault::DiskFault => Fault::Unreadable(cause(disk)),
        ReadFault::Damaged(Damage::At(place)) => {
            Fault::Damaged(Damage::At(place.saturating_add(disk.base())))
        }
        ReadFault::Damaged(Damage::NotAsWritten(number)) => {
            Fault::Damaged(Damage::NotAsWritten(number.saturating_add(known)))
        }
        ReadFault::Memory => Fault::Memory,
    }
}

/// The fault of a disk to which nothing could be appended.
pub(crate) fn not_appended(disk: &FileDisk, fault: AppendFault) -> Fault {
    match fault {
        AppendFault::TooLarge(size) => Fault::TooLarge(size),
        AppendFault::DiskFault => Fault::Unwritable(cause(disk)),
        AppendFault::DiskMemory | AppendFault::Memory => Fault::Memory,
    }
}

/// The fault of a disk that could not be written.
pub(crate) fn not_written(disk: &FileDisk) -> Fault {
    match disk.reason() {
        Some(error) => Fault::Unwritable(error),
        None => Fault::Memory,
    }
}

/// The system's words for an error, in small letters, such as `permission denied`.
pub fn reason(alloc: Global, error: &io::Error) -> Result<String, Memory> {
    let words = format!(in alloc; "{error}")?;
    let end = words.find(" (os error ").unwrap_or(words.len());
    let mut reason = String::new(alloc);
    for letter in words.chars().take(end) {
        reason.push(letter.to_ascii_lowercase())?;
    }
    Ok(reason)
}

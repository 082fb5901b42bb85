// Locks a file, and reads it from a place on.
ghost use Rattle.std.specs.Prelude.{◌≡◌, IfOk};
ghost use Rattle.base_devices.specs.States.{IsSettled};
ghost use Rattle.ws_file.specs.Files.{state_of};

use crate::faults::OpenFault;
use crate::file_disk::FileDisk;
use std::alloc::Global;
use std::fs::{self, File, OpenOptions, TryLockError};
use std::io::{self, ErrorKind, Read, Seek, SeekFrom};
use std::os::unix::fs::MetadataExt;
use std::thread;
use std::time::{Duration, Instant};

/// What a process will do with a file. Any number of processes read it at the same time; a process that changes it has it alone.
#[derive(Clone, Copy, Debug, PartialEq, Eq)]
pub enum Access {
    Read,
    Change,
}

/// A file that this process has locked and not read yet. The lock ends when the value is dropped, or with the process.
#[derive(Drop)]
pub struct Locked {
    file: File,
    access: Access,
}

/// A file that is still open, but no longer locked. As long as it is open no other file has its inode number.
#[derive(Drop)]
pub struct Released {
    file: File,
}

// How often a file is opened, if its name goes to another file during each wait for the lock.
const TURNS: u32 = 1_000;

// How long a process sleeps before it asks for the lock again.
const PAUSE_IN_MILLIS: u64 = 10;

/// Opens the file and locks it, and waits up to `wait` while other processes hold the lock. If the name goes to another file
/// meanwhile, that file is locked in place of the first. A pipe, device or socket is refused: it cannot be read from a place on.
pub fn lock(
    rt: &HostRuntime,
    path: &str,
    access: Access,
    wait: Duration,
) -> Result<Locked, OpenFault> {
    if is_stream(rt, path) {
        return Err(OpenFault::Unreadable(io::Error::from(ErrorKind::NotSeekable)));
    }
    let start = now(rt)?;
    for _turn in 0..TURNS {
        let file = opened(rt, path, access)?;
        wait_for(rt, &file, access, start, wait)?;
        if is_named(rt, &file, path)? {
            return Ok(Locked { file, access });
        }
    }
    Err(OpenFault::InUse)
}

// Whether the path names a pipe, a device or a socket.
fn is_stream(rt: &HostRuntime, path: &str) -> bool {
    match fs::metadata(rt, path) {
        Ok(named) => !named.is_file() && !named.is_dir(),
        Err(_) => false,
    }
}

// The time of the monotonic clock.
fn now(rt: &HostRuntime) -> Result<Instant, OpenFault> {
    Instant::now(rt).map_err(OpenFault::NotLocked)
}

fn opened(rt: &HostRuntime, path: &str, access: Access) -> Result<File, OpenFault> {
    let mut how = OpenOptions::new();
    how.read(true).write(access == Access::Change);
    how.open(rt, path)
        .map_err(|error| not_opened(error, access))
}

fn not_opened(error: io::Error, access: Access) -> OpenFault {
    match (error.kind(), access) {
        (ErrorKind::NotFound, _) => OpenFault::Absent,
        (ErrorKind::PermissionDenied | ErrorKind::ReadOnlyFilesystem, Access::Change) => {
            OpenFault::Unwritable(error)
        }
        _ => OpenFault::Unreadable(error),
    }
}

// Asks for the lock again and again, until it has the lock or `wait` has passed since `start`.
fn wait_for(
    rt: &HostRuntime,
    file: &File,
    access: Access,
    start: Instant,
    wait: Duration,
) -> Result<(), OpenFault> {
    for _try in 0..u32::MAX {
        match try_lock(file, access) {
            Ok(()) => return Ok(()),
            Err(TryLockError::Error(error)) => return Err(OpenFault::NotLocked(error)),
            Err(TryLockError::WouldBlock) => {}
        }
        if now(rt)?.duration_since(start) >= wait {
            return Err(OpenFault::InUse);
        }
        thread::sleep(rt, Duration::from_millis(PAUSE_IN_MILLIS));
    }
    Err(OpenFault::InUse)
}

fn try_lock(file: &File, access: Access) -> Result<(), TryLockError> {
    match access {
        Access::Read => file.try_lock_shared(),
        Access::Change => file.try_lock(),
    }
}

// Whether the path names the open file.
fn is_named(rt: &HostRuntime, file: &File, path: &str) -> Result<bool, OpenFault> {
    match fs::metadata(rt, path) {
        Ok(named) => {
            let found = file.metadata().map_err(OpenFault::Unreadable)?;
            Ok(found.dev() == named.dev() && found.ino() == named.ino())
        }
        Err(error) if error.kind() == ErrorKind::NotFound => Ok(false),
        Err(error) => Err(OpenFault::Unreadable(error)),
    }
}

impl Released {
    pub(crate) fn of(file: File) -> Released {
        Released { file }
    }
}

impl Locked {
    /// Whether it is the released file, and not another file that has its name now.
    pub fn is(&self, released: &Released) -> Result<bool, OpenFault> {
        let here = self.file.metadata().map_err(OpenFault::Unreadable)?;
        let there = released.file.metadata().map_err(OpenFault::Unreadable)?;
        Ok(here.dev() == there.dev() && here.ino() == there.ino())
    }

    /// Reads the file from the place on. The file is synced first, so nothing is pending at `Ok`.
    pub fn read_from(self, alloc: Global, place: u64) -> Result<FileDisk, OpenFault>
        ensures settled { IfOk result (λ disk. IsSettled (state_of disk)) }
        ensures base { IfOk result (λ disk. disk.base ≡ place) }
        ensures faults { IfOk result (λ disk. disk.log.faults ≡ 0) }
    {
        let Locked { mut file, access } = self;
        make_last(&file, access).map_err(OpenFault::Unreadable)?;
        let bytes = read_on(alloc, &mut file, place).map_err(OpenFault::Unreadable)?;
        Ok(FileDisk::of(alloc, file, place, bytes)?)
    }
}

// Syncs the file. A read-only file system refuses a sync, and has nothing pending.
fn make_last(file: &File, access: Access) -> io::Result<()> {
    match file.sync_data() {
        Err(error) if access == Access::Read && is_only_read(error.kind()) => Ok(()),
        synced => synced,
    }
}

fn is_only_read(kind: ErrorKind) -> bool {
    matches!(
        kind,
        ErrorKind::InvalidInput | ErrorKind::ReadOnlyFilesystem | ErrorKind::Unsupported
    )
}

// Reads from the place on.
fn read_on(alloc: Global, file: &mut File, place: u64) -> io::Result<Vec<u8>> {
    file.seek(SeekFrom::Start(place))?;
    let mut bytes = Vec::new(alloc);
    file.read_to_end(&mut bytes)?;
    Ok(bytes)
}

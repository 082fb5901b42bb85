//! Filling a file by a script.
ghost use Rattle.sqlite.specs.State.{HasCleanDisk};
ghost use Rattle.sqlite.specs.Held.{state};
ghost use Rattle.sqlite.specs.Batch.{ExecutesAll};

use sqlite::{Alter, Connection, Error, ErrorCode};
use std::alloc::Global;
use std::fs::OpenOptions;
use std::io::{self, ErrorKind};
use std::os::unix::fs::FileExt;

// Bytes 18 and 19 of a database say how it is written and read: here without a write-ahead log, which the kit would use.
const VERSIONS: [u8; 2] = [1, 1];

/// Fills the empty file with the database that the script makes, and syncs it. The log of the kit stays beside it.
pub(crate) fn fill(rt: &HostRuntime, name: &str, script: &str) -> io::Result<()> {
    if let Err(error) = store(rt, name, script) {
        return Err(cause(rt.alloc(), error));
    }
    let file = OpenOptions::new().write(true).open(rt, name)?;
    file.write_all_at(&VERSIONS, 18)?;
    file.sync_all()
}

// Makes the database of the script, and closes it.
fn store(rt: &HostRuntime, name: &str, script: &str) -> Result<(), Error> {
    let mut conn = Connection::open(rt, name)?;
    run_script(&mut conn, script)?;
    conn.close()
}

/// Runs the statements of the script, one after the other.
pub fn run_script<S: Alter>(conn: &mut Connection<S>, script: &str) -> Result<(), Error>
    ensures { HasCleanDisk (state S.Store conn.new)
        → ExecutesAll S.Store script.now conn.old conn.new result }
{
    conn.execute_batch(script)
}

// The reason why there is no database, as an error of the system.
fn cause(alloc: Global, error: Error) -> io::Error {
    if error == Error::SqliteFailure(ErrorCode::OutOfMemory) {
        return ErrorKind::OutOfMemory.into();
    }
    match format!(in alloc; "{error}") {
        Ok(words) => io::Error::other(words.as_str()),
        Err(_) => ErrorKind::OutOfMemory.into(),
    }
}

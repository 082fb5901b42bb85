//! Making a database beside a file, and giving it the file's name in one step.

use crate::filling::fill;
use std::fs::{self, File};
use std::io::{self, ErrorKind};
use std::path::Path;
use std::process;

/// Makes a database of the script at `path`. A file that is there is replaced whole, or stays as it was. If the path is a link,
/// the file that it leads to is replaced.
pub fn write_database(rt: &HostRuntime, path: &str, script: &str) -> io::Result<()> {
    match Path::new(path).canonicalize(rt) {
        Ok(file) => replace(rt, file.as_str(), script),
        Err(_) => replace(rt, path, script),
    }
}

// Makes the database at a path that is no link; a link would itself be replaced.
fn replace(rt: &HostRuntime, path: &str, script: &str) -> io::Result<()> {
    let pid = process::id(rt.process());
    let name = format!(in rt.alloc(); "{path}.{pid}.new")?;
    let log = format!(in rt.alloc(); "{path}.{pid}.new-wal")?;
    let new = Beside {
        name: name.as_str(),
        log: log.as_str(),
    };
    new.clear(rt)?;
    let done = new.make(rt, path, script);
    if done.is_err() {
        let _gone = new.clear(rt);
    }
    done
}

// The names of the database that is made beside a file, and of its log.
#[derive(Clone, Copy)]
struct Beside<'a> {
    name: &'a str,
    log: &'a str,
}

impl Beside<'_> {
    // Removes what has these names. A log left by an earlier process with the same number would be taken for ours.
    fn clear(self, rt: &HostRuntime) -> io::Result<()> {
        remove(rt, self.log)?;
        remove(rt, self.name)
    }

    fn make(self, rt: &HostRuntime, path: &str, script: &str) -> io::Result<()> {
        drop(File::create_new(rt, self.name)?);
        fill(rt, self.name, script)?;
        remove(rt, self.log)?;
        has_no_log(rt, path)?;
        take_over(rt, self.name, path)
    }
}

// Removes the file with this name, if there is one.
fn remove(rt: &HostRuntime, name: &str) -> io::Result<()> {
    match fs::remove_file(rt, name) {
        Err(error) if error.kind() != ErrorKind::NotFound => Err(error),
        _ => Ok(()),
    }
}

// Refuses a path beside which SQLite has a log or a journal, because the new file would be read with it.
fn has_no_log(rt: &HostRuntime, path: &str) -> io::Result<()> {
    let log = format!(in rt.alloc(); "{path}-wal")?;
    let journal = format!(in rt.alloc(); "{path}-journal")?;
    if fs::exists(rt, log.as_str())? || fs::exists(rt, journal.as_str())? {
        return Err(io::Error::other("it is in use: a log stands beside it"));
    }
    Ok(())
}

// Renames the new file to `path`. If a file is there, it must be a plain file; the new one gets its mode and replaces it.
fn take_over(rt: &HostRuntime, name: &str, path: &str) -> io::Result<()> {
    if let Ok(old) = fs::metadata(rt, path) {
        if !old.is_file() {
            return Err(io::Error::other("it is no plain file"));
        }
        fs::set_permissions(rt, name, old.permissions())?;
    }
    fs::rename(rt, name, path)
}

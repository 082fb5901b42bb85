// Makes a file beside another one, gives it the name in one step, and makes the name last.
ghost use Rattle.std.specs.Prelude.{◌≡◌, [], IfOk};
ghost use Rattle.ws_file.specs.Files.{just_opened};

use crate::faults::OpenFault;
use crate::file_disk::FileDisk;
use std::fs::{self, File};
use std::io::{self, ErrorKind};
use std::path::{Path, PathBuf};
use std::process;

/// The name of a file that was made beside a path, and is not yet the file at the path.
#[derive(Drop)]
pub struct MadeFile {
    name: String,
}

/// Makes an empty file beside the path, named PATH.PID.new, and locks it. If an earlier process with the same number left a file
/// there, only its name is removed and its bytes stay: it may be the file at the path, under a second name.
pub fn make_beside(rt: &HostRuntime, path: &str) -> Result<(MadeFile, FileDisk), OpenFault>
    ensures { IfOk result (λ made. made.1 ≡ just_opened 0 []) }
{
    let alloc = rt.alloc();
    let pid = process::id(rt.process());
    let name = format!(in alloc; "{path}.{pid}.new")?;
    let file = made_new(rt, name.as_str()).map_err(OpenFault::Unwritable)?;
    file.lock().map_err(OpenFault::NotLocked)?;
    let disk = FileDisk::of(alloc, file, 0, Vec::new(alloc))?;
    Ok((MadeFile { name }, disk))
}

// Makes a new file of this name. A file that has the name loses it.
fn made_new(rt: &HostRuntime, name: &str) -> io::Result<File> {
    match fs::remove_file(rt, name) {
        Err(error) if error.kind() != ErrorKind::NotFound => Err(error),
        _ => File::create_new(rt, name),
    }
}

impl MadeFile {
    /// Gives the file the name `path` in one step, and makes the name last. `Taken` if a file has the name, `Unwritable` if a
    /// dangling link has it. After a fault the file is gone; but if only the last sync fails it has the name.
    pub fn publish(self, rt: &HostRuntime, path: &str) -> Result<(), OpenFault> {
        let linked = linked(rt, self.name.as_str(), path);
        self.give_up(rt);
        linked?.sync_all().map_err(OpenFault::Unwritable)
    }

    /// Gives the file the name `path` in place of the file that has it, in one step, and makes the name last. It takes over the
    /// permissions of the other file. After a fault the file is gone; but if only the last sync fails it has the name.
    pub fn replace(self, rt: &HostRuntime, path: &str) -> Result<(), OpenFault> {
        match renamed(rt, self.name.as_str(), path) {
            Ok(folder) => folder.sync_all().map_err(OpenFault::Unwritable),
            Err(fault) => {
                self.give_up(rt);
                Err(fault)
            }
        }
    }

    /// Removes the name with which the file was made. If the file has no other name, it is gone.
    pub fn give_up(self, rt: &HostRuntime) {
        let _gone = fs::remove_file(rt, self.name.as_str());
    }
}

/// Makes the name of the file at the path last. If the path is a link, the name of the file to which it leads is made last.
pub fn make_name_last(rt: &HostRuntime, path: &str) -> Result<(), OpenFault> {
    let folder = folder_of_file(rt, path)?;
    folder.sync_all().map_err(OpenFault::Unwritable)
}

// The folder of the file at the path. If the path is a link, it is the folder of the file to which the link leads.
fn folder_of_file(rt: &HostRuntime, path: &str) -> Result<File, OpenFault> {
    let named = fs::symlink_metadata(rt, path).map_err(OpenFault::Unwritable)?;
    if !named.is_symlink() {
        return folder_of(rt, path);
    }
    let file = Path::new(path)
        .canonicalize(rt)
        .map_err(OpenFault::Unwritable)?;
    folder_of(rt, file.as_str())
}

// Makes the path a second name of the file, and returns the folder of the path. All that takes memory is done before.
fn linked(rt: &HostRuntime, name: &str, path: &str) -> Result<File, OpenFault> {
    let folder = folder_of(rt, path)?;
    match fs::hard_link(rt, name, path) {
        Ok(()) => Ok(folder),
        Err(error) if error.kind() == ErrorKind::AlreadyExists => Err(taken(rt, path, error)),
        Err(error) => Err(OpenFault::Unwritable(error)),
    }
}

// Renames the file to the path, and returns the folder of the path. All that takes memory is done before.
fn renamed(rt: &HostRuntime, name: &str, path: &str) -> Result<File, OpenFault> {
    let folder = folder_of(rt, path)?;
    match take_over(rt, name, path) {
        Ok(()) => Ok(folder),
        Err(error) => Err(OpenFault::Unwritable(error)),
    }
}

// The fault of a name that is taken, by a file or by a dangling link.
fn taken(rt: &HostRuntime, path: &str, error: io::Error) -> OpenFault {
    match fs::exists(rt, path) {
        Ok(false) => OpenFault::Unwritable(error),
        _ => OpenFault::Taken,
    }
}

fn take_over(rt: &HostRuntime, name: &str, path: &str) -> io::Result<()> {
    let mode = fs::metadata(rt, path)?.permissions();
    fs::set_permissions(rt, name, mode)?;
    fs::rename(rt, name, path)
}

// Opens the folder of the path. A sync of the folder makes the names in it last.
fn folder_of(rt: &HostRuntime, path: &str) -> Result<File, OpenFault> {
    let mut folder = PathBuf::from_str(rt.alloc(), path)?;
    folder.pop();
    let name = folder.as_str();
    File::open(rt, if name.is_empty() { "." } else { name }).map_err(OpenFault::Unwritable)
}

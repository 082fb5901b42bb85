//! A disk over a file of the operating system: locked, read from a place on, made, published and replaced.
//!
//! The lock is `flock` on the whole file, so it ends with the process, however the process ends. Four things are trusted, not
//! proved: the file does as [`FileDisk`] notes; after a crash it holds one of the images that `base_devices` allows; a sync that
//! reports success was successful; and nobody writes the file without the lock.
#![tactic(auto)]

mod calls;
mod faults;
mod file_disk;
mod locking;
mod naming;

pub use faults::OpenFault;
pub use file_disk::FileDisk;
pub use locking::{Access, Locked, Released, lock};
pub use naming::{MadeFile, make_beside, make_name_last};

// A disk over a file.
ghost use Rattle.std.specs.Prelude.{◌≡◌, ◌+◌, ◌≤◌, length, drop, IfOk, OnOk};
ghost use Rattle.base_devices.specs.States.{GoesOn, IsLeft, IsLeftTorn, IsRefused, IsSettled, LeavesOnly};
ghost use Rattle.base_devices.specs.Torn.{range_of, written};
ghost use Rattle.base_devices.specs.Logs.{Load, Sync, Write};
ghost use Rattle.ws_file.specs.Files.{IsCounted, IsGivenUp, bytes_of, just_opened, state_of};

use crate::calls::{Deed, Log};
use crate::locking::Released;
use base_devices::{Disk, DiskRefusal, Memory, overwrite};
use std::alloc::Global;
use std::fs::File;
use std::io;
use std::marker::Model;

/// A file of the operating system as a disk, from the place `base` on, locked by this process. It keeps the bytes that were read
/// when the file was opened, the bytes that the file must have now, and the calls since then.
#[derive(Drop)]
pub struct FileDisk {
    alloc: Global,
    file: File,
    base: u64,
    made_of: Vec<u8>,
    bytes: Vec<u8>,
    log: Log,
}

impl Model for FileDisk {
    ghost use Rattle.std.specs.Prelude.{◌≡◌};
    ghost use Rattle.base_devices.specs.Traces.{after_all, fresh};
    ghost use Rattle.ws_file.specs.Files.{FileState};

    ghost Value = { FileState };

    ghost view = { λ s. record { base = s.base; made_of = s.made_of.items; log = s.log } };

    ghost invariant = { λ s.
        s.bytes.items ≡ (after_all (fresh s.made_of.items) s.log.calls).bytes };
}

impl FileDisk {
    /// The disk over a file from `base` on. `bytes` are the bytes of the file from there on, all of them synced.
    pub(crate) fn of(
        alloc: Global,
        file: File,
        base: u64,
        bytes: Vec<u8>,
    ) -> Result<FileDisk, Memory>
        ensures { IfOk result (λ disk. disk ≡ just_opened base bytes.items) }
    {
        Ok(FileDisk {
            alloc,
            file,
            base,
            made_of: bytes.to_vec(alloc)?,
            bytes,
            log: Log::new(alloc),
        })
    }

    /// The bytes that the file must have from the base on.
    pub fn bytes(&self) -> &[u8]
        ensures { result.now ≡ bytes_of self.now }
    {
        &self.bytes
    }

    /// The place in the file at which the disk begins.
    pub fn base(&self) -> u64
        ensures { result ≡ self.now.base }
    {
        self.base
    }

    /// The reason of the first failure; None if no call has failed.
    pub fn reason(&self) -> Option<io::Error> {
        self.log.reason()
    }

    /// The same file as a disk from a later place on; `place` counts from the base. Nothing may be pending. The bytes before the
    /// place are not kept.
    pub fn from_place(self, place: usize) -> Result<FileDisk, Memory>
        requires within { place ≤ length (bytes_of self) }
        requires settled { IsSettled (state_of self) }
        ensures base { IfOk result (λ disk. disk.base ≡ self.base + place) }
        ensures bytes { IfOk result (λ disk. bytes_of disk ≡ drop place (bytes_of self)) }
        ensures lasts { IfOk result (λ disk. IsSettled (state_of disk)) }
        ensures faults { IfOk result (λ disk. disk.log.faults ≡ self.log.faults) }
    {
        let FileDisk {
            alloc,
            file,
            base,
            made_of: _,
            bytes,
            mut log,
        } = self;
        let base = base.checked_add(place as u64).ok_or(Memory)?;
        let made_of = bytes[place..].to_vec(alloc)?;
        log.begin_again();
        Ok(FileDisk {
            alloc,
            file,
            base,
            bytes: made_of.to_vec(alloc)?,
            made_of,
            log,
        })
    }

    /// Frees the lock. The file stays open, so that the system gives its inode number to no other file.
    pub fn release(self) -> Result<Released, io::Error> {
        self.file.unlock()?;
        Ok(Released::of(self.file))
    }

    // Returns the bytes, and counts the call.
    fn make_load(&mut self, alloc: Global) -> Result<Vec<u8>, DiskRefusal>
        ensures bytes { IfOk result (λ all. all.items ≡ bytes_of self.old) }
        ensures made_of { self.new.made_of ≡ self.old.made_of }
        ensures counted { IsCounted Load self.old.log self.new.log result }
        ensures later { self.old.log.faults ≤ self.new.log.faults }
        ensures given_up { IsGivenUp self.old.log.faults result }
    {
        let all = self.bytes.to_vec(alloc)?;
        self.log.make(&self.file, self.base, Deed::Load)?;
        Ok(all)
    }

    // Makes a sync, and counts it.
    fn make_sync(&mut self) -> Result<(), DiskRefusal>
        ensures made_of { self.new.made_of ≡ self.old.made_of }
        ensures counted { IsCounted Sync self.old.log self.new.log result }
        ensures later { self.old.log.faults ≤ self.new.log.faults }
        ensures given_up { IsGivenUp self.old.log.faults result }
    {
        self.log.make(&self.file, self.base, Deed::Sync)
    }

    // Makes a write, and counts it.
    fn make_write(&mut self, at: usize, bytes: &[u8]) -> Result<(), DiskRefusal>
        requires { at ≤ length (bytes_of self.old) }
        ensures made_of { self.new.made_of ≡ self.old.made_of }
        ensures counted { IsCounted (Write at bytes.now) self.old.log self.new.log result }
        ensures later { self.old.log.faults ≤ self.new.log.faults }
        ensures given_up { IsGivenUp self.old.log.faults result }
    {
        let copy = bytes.to_vec(self.alloc)?;
        self.bytes.reserve(bytes.len())?;
        self.log.make(&self.file, self.base, Deed::Write(at, copy))?;
        overwrite(&mut self.bytes, at, bytes);
        Ok(())
    }
}

impl Disk for FileDisk {
    ghost state = { state_of };

    fn load(&mut self, alloc: Global) -> Result<Vec<u8>, DiskRefusal>
        ensures bytes { IfOk result (λ all. all.items ≡ bytes_of self.old) }
        ensures same { bytes_of self.new ≡ bytes_of self.old }
        ensures time { GoesOn (state_of self.old) (state_of self.new) }
        ensures images { LeavesOnly (state_of self.old) (state_of self.new)
            (IsLeft (state_of self.old)) }
        ensures read { IsLeft (state_of self.new) (bytes_of self.new) }
        ensures cause { IsRefused (state_of self.old) (state_of self.new) result }

        // A file that failed is given up.
        ensures given_up { IsGivenUp self.old.log.faults result }
    {
        self.make_load(alloc)
    }

    fn write_at(&mut self, at: usize, bytes: &[u8]) -> Result<(), DiskRefusal>
        requires { at ≤ length (bytes_of self.old) }
        ensures bytes { OnOk result (bytes_of self.new ≡ written at bytes.now (bytes_of self.old)) }
        ensures time { GoesOn (state_of self.old) (state_of self.new) }
        ensures images { LeavesOnly (state_of self.old) (state_of self.new)
            (IsLeftTorn (state_of self.old) (range_of at bytes.now)) }
        ensures read { IsLeft (state_of self.new) (bytes_of self.new) }
        ensures cause { IsRefused (state_of self.old) (state_of self.new) result }

        // A file that failed is given up.
        ensures given_up { IsGivenUp self.old.log.faults result }
    {
        self.make_write(at, bytes)
    }

    fn sync(&mut self) -> Result<(), DiskRefusal>
        ensures settled { OnOk result (IsSettled (state_of self.new)) }
        ensures same { bytes_of self.new ≡ bytes_of self.old }
        ensures time { GoesOn (state_of self.old) (state_of self.new) }
        ensures images { LeavesOnly (state_of self.old) (state_of self.new)
            (IsLeft (state_of self.old)) }
        ensures read { IsLeft (state_of self.new) (bytes_of self.new) }
        ensures cause { IsRefused (state_of self.old) (state_of self.new) result }

        // A file that failed is given up.
        ensures given_up { IsGivenUp self.old.log.faults result }
    {
        self.make_sync()
    }

    fn faults(&self) -> u64 {
        self.log.faults()
    }
}

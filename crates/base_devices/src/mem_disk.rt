// A disk in memory that fails at chosen calls.
ghost use Rattle.std.specs.Prelude.{◌≡◌, ◌+◌, ◌≤◌, length, vec_len, vec_capacity, IfOk, OnOk};
ghost use Rattle.base_devices.specs.InMemory.{bytes_of, state_of, unused_disk};
ghost use Rattle.base_devices.specs.Logs.{IsCounted, Load, Sync, Write};
ghost use Rattle.base_devices.specs.States.{GoesOn, IsLeft, IsLeftTorn, IsRefused, IsSettled, LeavesOnly};
ghost use Rattle.base_devices.specs.Torn.{range_of, written};

use crate::logs::{Deed, Log};
use crate::{Disk, DiskRefusal, Memory};
use std::alloc::Global;
use std::marker::Model;

/// Bytes in memory as a disk, with failures at chosen calls. It keeps the bytes that it was made of and its calls, which
/// determine what a crash at each moment may leave.
#[derive(Drop)]
pub struct MemDisk {
    alloc: Global,
    made_of: Vec<u8>,
    bytes: Vec<u8>,
    log: Log,
}

impl Model for MemDisk {
    ghost use Rattle.std.specs.Prelude.{◌≡◌};
    ghost use Rattle.base_devices.specs.InMemory.{MemState};
    ghost use Rattle.base_devices.specs.Traces.{after_all, fresh};

    ghost Value = { MemState };

    ghost view = { λ s. record { made_of = s.made_of.items; log = s.log } };

    ghost invariant = { λ s.
        s.bytes.items ≡ (after_all (fresh s.made_of.items) s.log.calls).bytes };
}

/// Writes the bytes from the place on, over the old ones and beyond their end. There must be room for them.
pub fn overwrite(file: &mut Vec<u8>, at: usize, bytes: &[u8])
    requires at { at ≤ length file.old.items }
    requires room { vec_len file.old + length bytes.now ≤ vec_capacity file.old }
    ensures { file.new.items ≡ written at bytes.now file.old.items }
{
    if bytes.len() >= file.len() - at {
        file.truncate(at);
        file.extend_from_slice(bytes).unwrap();
        return;
    }
    file[at..at + bytes.len()].copy_from_slice(bytes);
}

impl MemDisk {
    /// A disk of these bytes, all synced, which fails at the calls whose numbers are in `failing`. Loads, syncs and writes are
    /// counted; the first has number 1.
    pub fn of(alloc: Global, bytes: Vec<u8>, failing: Vec<u64>) -> Result<MemDisk, Memory>
        ensures { IfOk result (λ disk. disk ≡ unused_disk bytes.items failing.items) }
    {
        Ok(MemDisk {
            alloc,
            made_of: bytes.to_vec(alloc)?,
            bytes,
            log: Log::new(alloc, failing),
        })
    }

    /// The bytes that a read gives.
    pub fn bytes(&self) -> &[u8]
        ensures { result.now ≡ bytes_of self.now }
    {
        &self.bytes
    }

    // Counts a load, and returns the bytes unless it fails.
    fn make_load(&mut self, alloc: Global) -> Result<Vec<u8>, DiskRefusal>
        ensures bytes { IfOk result (λ all. all.items ≡ bytes_of self.old) }
        ensures made_of { self.new.made_of ≡ self.old.made_of }
        ensures counted { IsCounted Load self.old.log self.new.log result }
        ensures later { self.old.log.faults ≤ self.new.log.faults }
    {
        let all = self.bytes.to_vec(alloc)?;
        self.log.count(Deed::Load)?;
        Ok(all)
    }

    // Counts a sync, which may fail.
    fn make_sync(&mut self) -> Result<(), DiskRefusal>
        ensures made_of { self.new.made_of ≡ self.old.made_of }
        ensures counted { IsCounted Sync self.old.log self.new.log result }
        ensures later { self.old.log.faults ≤ self.new.log.faults }
    {
        self.log.count(Deed::Sync)
    }

    // Counts a write, and makes it unless it fails.
    fn make_write(&mut self, at: usize, bytes: &[u8]) -> Result<(), DiskRefusal>
        requires { at ≤ length (bytes_of self.old) }
        ensures made_of { self.new.made_of ≡ self.old.made_of }
        ensures counted { IsCounted (Write at bytes.now) self.old.log self.new.log result }
        ensures later { self.old.log.faults ≤ self.new.log.faults }
    {
        let copy = bytes.to_vec(self.alloc)?;
        self.bytes.reserve(bytes.len())?;
        self.log.count(Deed::Write(at, copy))?;
        overwrite(&mut self.bytes, at, bytes);
        Ok(())
    }
}

impl Disk for MemDisk {
    ghost state = { state_of };

    fn load(&mut self, alloc: Global) -> Result<Vec<u8>, DiskRefusal>
        ensures bytes { IfOk result (λ all. all.items ≡ bytes_of self.old) }
        ensures same { bytes_of self.new ≡ bytes_of self.old }
        ensures time { GoesOn (state_of self.old) (state_of self.new) }
        ensures images { LeavesOnly (state_of self.old) (state_of self.new)
            (IsLeft (state_of self.old)) }
        ensures read { IsLeft (state_of self.new) (bytes_of self.new) }
        ensures cause { IsRefused (state_of self.old) (state_of self.new) result }

        // The calls that fail.
        ensures made_of { self.new.made_of ≡ self.old.made_of }
        ensures counted { IsCounted Load self.old.log self.new.log result }
    {
        self.make_load(alloc)
    }

    fn write_at(&mut self, at: usize, bytes: &[u8]) -> Result<(), DiskRefusal>
        requires { at ≤ length (bytes_of self.old) }
        ensures bytes { OnOk result (bytes_of self.new ≡ written at bytes.now (bytes_of self.old)) }
        ensures time { GoesOn (state_of self.old) (state_of self.new) }
        ensures images { LeavesOnly (state_of self.old) (state_of self.new)
            (IsLeftTorn (state_of self.old) (range_of at bytes.now)) }
        ensures read { IsLeft (state_of self.new) (bytes_of self.new) }
        ensures cause { IsRefused (state_of self.old) (state_of self.new) result }

        // The calls that fail.
        ensures made_of { self.new.made_of ≡ self.old.made_of }
        ensures counted { IsCounted (Write at bytes.now) self.old.log self.new.log result }
    {
        self.make_write(at, bytes)
    }

    fn sync(&mut self) -> Result<(), DiskRefusal>
        ensures settled { OnOk result (IsSettled (state_of self.new)) }
        ensures same { bytes_of self.new ≡ bytes_of self.old }
        ensures time { GoesOn (state_of self.old) (state_of self.new) }
        ensures images { LeavesOnly (state_of self.old) (state_of self.new)
            (IsLeft (state_of self.old)) }
        ensures read { IsLeft (state_of self.new) (bytes_of self.new) }
        ensures cause { IsRefused (state_of self.old) (state_of self.new) result }

        // The calls that fail.
        ensures made_of { self.new.made_of ≡ self.old.made_of }
        ensures counted { IsCounted Sync self.old.log self.new.log result }
    {
        self.make_sync()
    }

    fn faults(&self) -> u64 {
        self.log.faults()
    }
}

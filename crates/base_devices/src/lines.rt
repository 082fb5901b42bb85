//! A reader of lines, which keeps the bytes that it took beyond the line that it gave.
ghost use Rattle.std.specs.Prelude.{◌≡◌, ◌≤◌, [], false, IfOk, IfErr, IsErrOf};
ghost use Rattle.base_devices.specs.Faults.{Rose};
ghost use Rattle.base_devices.specs.Given.{HasCut, HasEnded, HasFilled, HasGiven, IsLine, IsLost, no_room};
ghost use Rattle.base_devices.specs.declared.lines.LineRefusal.TheVariants.{Memory as WantOfMemory};

use crate::{Failed, Source};
use def_memory::Memory;
use memchr::memchr;
use std::alloc::{AllocError, AllocFailed, Global};
use std::marker::Model;

/// The next line of an input, without its line feed.
#[derive(Debug, Drop)]
pub enum NextLine {
    /// A line that a line feed ends.
    Whole(Vec<u8>),
    /// The bytes after the last line feed, at the end of the input.
    Last(Vec<u8>),
}

/// Why there is no next line.
#[derive(Clone, Copy, Debug, PartialEq, Eq)]
pub enum LineRefusal {
    /// The source failed.
    ReadFault,
    /// The input has more bytes than may be taken.
    TooLong,
    /// There was not enough memory for the line.
    Memory,
}

impl From<AllocError> for LineRefusal {
    ghost from_gives = { λ _ refusal. refusal ≡ WantOfMemory };

    fn from(_: AllocError) -> LineRefusal {
        LineRefusal::Memory
    }
}

impl From<Memory> for LineRefusal {
    ghost from_gives = { λ _ refusal. refusal ≡ WantOfMemory };

    fn from(_: Memory) -> LineRefusal {
        LineRefusal::Memory
    }
}

impl<T: Drop> From<AllocFailed<T>> for LineRefusal {
    ghost from_gives = { λ _ refusal. refusal ≡ WantOfMemory };

    fn from(_: AllocFailed<T>) -> LineRefusal {
        LineRefusal::Memory
    }
}

// The most bytes that one read asks for.
const PIECE: usize = 16_384;

/// The lines of one source. Contracts see the bytes that were taken and not given yet, and the number of bytes that may still be
/// taken.
#[derive(Drop)]
pub struct Lines {
    kept: Vec<u8>,
    at: usize,
    room: usize,
}

impl Model for Lines {
    ghost use Rattle.std.specs.Prelude.{◌≤◌, drop, vec_len};
    ghost use Rattle.base_devices.specs.Given.{Kept};

    ghost Value = { Kept };

    ghost view = { λ l. record { bytes = drop l.at l.kept.items; room = l.room } };

    ghost invariant = { λ l. l.at ≤ vec_len l.kept };
}

impl Lines {
    /// A reader before the first line, which may take `limit` bytes.
    pub fn new(alloc: Global, limit: usize) -> Lines
        ensures fresh { result ≡ record { bytes = []; room = limit } }
    {
        Lines {
            kept: Vec::new(alloc),
            at: 0,
            room: limit,
        }
    }

    /// The next line. It is refused with `TooLong` exactly if one byte more than allowed was taken, and the allowed bytes have no
    /// further line feed. After a refusal bytes are lost, so the reader is of no use any more.
    pub fn next<S: Source>(
        &mut self,
        alloc: Global,
        source: &mut S,
    ) -> Result<NextLine, LineRefusal>
        ensures given { IfOk result (HasGiven (S.left source.old) (S.left source.new) self.old
            self.new) }
        ensures line { IfOk result IsLine }
        ensures refused { IfErr result (IsLost (S.left source.old) (S.left source.new) self.old) }
        ensures later { S.fault_count source.old ≤ S.fault_count source.new }
        ensures fault { IsErrOf result LineRefusal.ReadFault
            → Rose (S.fault_count source.old) (S.fault_count source.new) }
    {
        let mut line = Vec::new(alloc);
        'pieces: loop {
            if self.cut(&mut line)? {
                return Ok(NextLine::Whole(line));
            }
            if !self.fill(source)? {
                return Ok(NextLine::Last(line));
            }
        }
    }

    // Moves the kept bytes to the line, up to the first line feed, which is dropped. Returns whether there was one.
    fn cut(&mut self, line: &mut Vec<u8>) -> Result<bool, Memory>
        ensures moved { IfOk result (HasCut self.old self.new line.old.items line.new.items) }
        ensures room { self.new.room ≡ self.old.room }
    {
        let kept = &self.kept[self.at..];
        match memchr(b'\n', kept) {
            Some(place) => {
                line.extend_from_slice(&kept[..place])?;
                self.at += place + 1;
                Ok(true)
            }
            None => {
                line.extend_from_slice(kept)?;
                self.at = self.kept.len();
                Ok(false)
            }
        }
    }

    // Takes some bytes from the source; none may be kept. Returns whether there were any.
    fn fill<S: Source>(&mut self, source: &mut S) -> Result<bool, LineRefusal>
        requires none { self.old.bytes ≡ [] }
        ensures filled { IfOk result (HasFilled (S.left source.old) (S.left source.new) self.old
            self.new) }
        ensures refused { IfErr result (IsLost (S.left source.old) (S.left source.new) self.old) }
        ensures later { S.fault_count source.old ≤ S.fault_count source.new }
        ensures fault { IsErrOf result LineRefusal.ReadFault
            → Rose (S.fault_count source.old) (S.fault_count source.new) }
    {
        if self.room == 0 {
            return ended(source);
        }
        let want = self.room.min(PIECE);
        let mut piece = [0u8; PIECE];
        let Ok(count) = source.take(&mut piece[..want]) else {
            return Err(LineRefusal::ReadFault);
        };
        self.kept.clear();
        self.at = 0;
        self.kept.extend_from_slice(&piece[..count])?;
        self.room -= count;
        Ok(count > 0)
    }
}

// Called if no more bytes may be taken: false at the end of the input, otherwise the refusal `TooLong`.
fn ended<S: Source>(source: &mut S) -> Result<bool, LineRefusal>
    ensures ended { IfOk result (λ more. (more ≡ false) × HasEnded (S.left source.old)
        (S.left source.new)) }
    ensures refused { IfErr result (IsLost (S.left source.old) (S.left source.new) no_room) }
    ensures later { S.fault_count source.old ≤ S.fault_count source.new }
    ensures fault { IsErrOf result LineRefusal.ReadFault
        → Rose (S.fault_count source.old) (S.fault_count source.new) }
{
    let mut extra = [0u8; 1];
    match source.take(&mut extra) {
        Ok(0) => Ok(false),
        Ok(_) => Err(LineRefusal::TooLong),
        Err(_) => Err(LineRefusal::ReadFault),
    }
}

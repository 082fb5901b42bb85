//! The marks of one tuple.
ghost use Rattle.std.specs.Prelude.{◌≡◌, OnOk, OnErr};
ghost use Rattle.set_versions.specs.Chains.{AreMarks};
ghost use Rattle.set_versions.specs.Based.{base_marks};
ghost use Rattle.set_versions.specs.Touches.{touched};
ghost use Rattle.set_versions.specs.Marked.{no_marks, is_based as is_based_def, is_nowhere as is_nowhere_def, stands as stands_def};
ghost use Rattle.set_versions.specs.Unders.{is_under, under_rises};

use base_tree::{Cut, Share, TreeMap};
use def_memory::Memory;
use std::alloc::{AllocError, Global};
use std::cmp::Reverse;

/// The markers of a tuple by the number of the update, the greatest first. A marker says whether the update's last write of the
/// tuple was an insertion.
pub type Chain = TreeMap<Reverse<u32>, bool>;

/// Whether the base has the tuple, and its markers.
#[derive(Drop)]
pub struct Marks {
    pub in_base: bool,
    pub chain: Chain,
}

/// A change to the marks of a tuple: an update's marker is put in or taken out.
#[derive(Clone, Copy)]
pub enum Touch {
    Mark(u32, bool),
    Unmark(u32),
}

impl Share for Marks {
    fn share(&self) -> Result<Marks, AllocError> {
        Ok(Marks {
            in_base: self.in_base,
            chain: self.chain.share()?,
        })
    }
}

// The markers of updates with a lower number.
#[derive(Drop)]
struct Under(u32);

impl Cut<Reverse<u32>> for Under {
    ghost reaches = { λ c. is_under c.0 };

    ghost rises = { λ c x y. under_rises c.0 x y };

    fn reaches(&self, key: &Reverse<u32>) -> bool {
        key.0 < self.0
    }
}

impl Marks {
    /// The marks of a tuple that is nowhere.
    pub fn new() -> Marks
        ensures none { result ≡ no_marks }
        ensures in_order { AreMarks result }
    {
        Marks {
            in_base: false,
            chain: TreeMap::new(),
        }
    }

    /// The marks of a tuple that the base has and no update wrote.
    pub fn based() -> Marks
        ensures based { result ≡ base_marks }
        ensures in_order { AreMarks result }
    {
        Marks {
            in_base: true,
            chain: TreeMap::new(),
        }
    }

    /// Changes the marks. If it is refused, nothing changes.
    pub fn touch(&mut self, alloc: Global, touch: Touch) -> Result<(), Memory>
        ensures ok { OnOk result (self.new ≡ touched touch self.old) }
        ensures err { OnErr result (self.new ≡ self.old) }
        ensures in_order { AreMarks self.old → AreMarks self.new }
    {
        match touch {
            Touch::Mark(number, inserted) => {
                match self.chain.put(alloc, Reverse(number), inserted) {
                    Ok(_) => return Ok(()),
                    Err(_) => return Err(Memory),
                }
            }
            Touch::Unmark(number) => {
                self.chain.remove(&Reverse(number))?;
                return Ok(());
            }
        }
    }

    /// Whether the tuple is nowhere.
    pub fn is_nowhere(&self) -> bool
        ensures { result ≡ is_nowhere_def self.now }
    {
        !self.in_base && self.chain.len() == 0
    }

    /// Whether the base has the tuple and no update wrote it.
    pub fn is_based(&self) -> bool
        ensures { result ≡ is_based_def self.now }
    {
        self.in_base && self.chain.len() == 0
    }

    /// Whether the update sees the tuple.
    pub fn stands(&self, number: u32) -> bool
        ensures { result ≡ stands_def number self.now }
    {
        match self.chain.seek(&Under(number)) {
            Some(entry) => entry.1,
            None => self.in_base,
        }
    }
}

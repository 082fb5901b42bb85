//! The tuples that writes touched: whether each was there before them, and is there after them.

use crate::hidden::WANT;
use base_types::{Facts, Memory, Tuple, Write, WriteList};
use set_facts::IndexedFacts;
use std::alloc::Global;
use std::collections::BTreeMap;
use ws_names::Names;

/// Whether a tuple was there before the writes, and is there now.
#[derive(Clone, Copy)]
pub struct Touch {
    pub was: bool,
    pub is: bool,
}

/// Touched tuples, in order.
#[derive(Drop)]
pub struct Touched {
    pub tuples: BTreeMap<Tuple, Touch>,
}

impl Touched {
    /// No touched tuple.
    pub fn new(alloc: Global) -> Touched {
        Touched {
            tuples: BTreeMap::new(alloc),
        }
    }

    /// Adds writes that were made, each of which changed something.
    pub fn made(&mut self, writes: &[Write]) -> Result<(), Memory> {
        for write in writes {
            match write {
                Write::Insert(tuple) => self.touch(tuple, false, true)?,
                Write::Delete(tuple) => self.touch(tuple, true, false)?,
            }
        }
        Ok(())
    }

    /// Adds writes that are still to be made over `facts`.
    pub fn to_make(&mut self, writes: &[Write], facts: &IndexedFacts) -> Result<(), Memory> {
        for write in writes {
            match write {
                Write::Insert(tuple) => self.touch(tuple, facts.contains(tuple), true)?,
                Write::Delete(tuple) => self.touch(tuple, facts.contains(tuple), false)?,
            }
        }
        Ok(())
    }

    /// The net change: the tuples that came or went, by names, in the order of the tuples.
    pub fn net(&self, alloc: Global, names: &Names) -> Result<WriteList, Memory> {
        let mut net = WriteList::new(alloc);
        for (tuple, touch) in &self.tuples {
            if touch.was != touch.is && tuple.relation < WANT {
                let tuple = names.tuple(alloc, tuple)?;
                net.push(if touch.is {
                    Write::Insert(tuple)
                } else {
                    Write::Delete(tuple)
                })?;
            }
        }
        Ok(net)
    }

    // Notes whether the tuple is there now; `was` counts only at the first touch.
    fn touch(&mut self, tuple: &Tuple, was: bool, is: bool) -> Result<(), Memory> {
        let mut first = was;
        if let Some(touch) = self.tuples.get(tuple) {
            first = touch.was;
        }
        let touch = Touch { was: first, is };
        match self.tuples.insert(tuple.share()?, touch) {
            Ok(_) => Ok(()),
            Err(_) => Err(Memory),
        }
    }
}

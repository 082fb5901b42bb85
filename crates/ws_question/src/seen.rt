//! The questions that this process has shown.

use crate::asked::AskedNow;
use base_types::{Memory, TryCopy, TupleList};
use std::alloc::Global;
use std::collections::BTreeMap;
use ws_run::Question;

// The question of an update, as it was shown.
#[derive(Drop)]
struct Seen {
    is_positive: bool,
    asked: TupleList,
    candidates: TupleList,
}

/// For each update whose question was shown, the question that was shown last.
#[derive(Drop)]
pub struct Shown {
    alloc: Global,
    seen: BTreeMap<u32, Seen>,
}

impl Shown {
    /// No question was shown yet.
    pub fn new(alloc: Global) -> Shown {
        Shown {
            alloc,
            seen: BTreeMap::new(alloc),
        }
    }

    /// Notes that the question is shown.
    pub fn put(&mut self, asked: &AskedNow) -> Result<(), Memory> {
        let seen = Seen {
            is_positive: asked.question.is_positive,
            asked: asked.question.asked.tuples.copy(self.alloc)?,
            candidates: asked.question.candidates.copy(self.alloc)?,
        };
        match self.seen.insert(asked.number, seen) {
            Ok(_) => Ok(()),
            Err(_) => Err(Memory),
        }
    }

    /// Whether a question of this update was shown, and the last one was another question or had other candidates.
    pub fn is_other(&self, asked: &AskedNow) -> bool {
        match self.seen.get(&asked.number) {
            Some(seen) => !seen.is_of(&asked.question),
            None => false,
        }
    }

    /// Forgets what was shown of the update.
    pub fn forget(&mut self, number: u32) {
        self.seen.remove(&number);
    }
}

impl Seen {
    fn is_of(&self, question: &Question) -> bool {
        self.is_positive == question.is_positive
            && self.asked == question.asked.tuples
            && self.candidates == question.candidates
    }
}

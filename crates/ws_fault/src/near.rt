//! The question "did you mean ..?", by the name nearest to a wrong one.

use std::alloc::{AllocError, Global};
use strsim::osa_distance;

/// The considered name that is nearest to a word; the first one if several are equally near.
///
/// A name is near if its distance to the word is at most a third of the length of the longer of the two. The distance counts
/// letters inserted, deleted, changed, or swapped with the next one. Capitals do not matter.
#[derive(Drop)]
pub struct Nearest<'a> {
    alloc: Global,
    word: String,
    length: usize,
    best: Option<(usize, &'a str)>,
}

impl<'a> Nearest<'a> {
    /// A search for the nearest name to `word`, before any name is considered.
    pub fn to(alloc: Global, word: &str) -> Result<Nearest<'a>, AllocError> {
        Ok(Nearest {
            alloc,
            word: word.to_lowercase(alloc)?,
            length: word.chars().count(),
            best: None,
        })
    }

    /// Considers a name.
    pub fn consider(&mut self, name: &'a str) -> Result<(), AllocError> {
        let lower = name.to_lowercase(self.alloc)?;
        let distance = osa_distance(self.alloc, self.word.as_str(), lower.as_str())?;
        if distance <= self.length.max(name.chars().count()) / 3 && self.is_nearer(distance) {
            self.best = Some((distance, name));
        }
        Ok(())
    }

    fn is_nearer(&self, distance: usize) -> bool {
        match self.best {
            Some((least, _)) => distance < least,
            None => true,
        }
    }

    /// The nearest name, if any is near.
    pub fn name(&self) -> Option<&'a str> {
        match self.best {
            Some((_, name)) => Some(name),
            None => None,
        }
    }

    /// The question whether the nearest name was meant, if any is near.
    pub fn question(&self) -> Result<Option<String>, AllocError> {
        match self.best {
            Some((_, name)) => Ok(Some(meant(self.alloc, name)?)),
            None => Ok(None),
        }
    }
}

/// The question whether a name was meant.
pub fn meant(alloc: Global, name: &str) -> Result<String, AllocError> {
    format!(in alloc; "did you mean {name}?")
}

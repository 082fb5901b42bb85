//! Answers, and the questions that they answer.
ghost use Rattle.std.specs.Prelude.{◌≡◌, IfOk};
ghost use Rattle.def_workspace.specs.Lines.{Asked as AskedMeant, Given as GivenMeant};
ghost use Rattle.ws_lines.specs.Meanings.{asked_of, given_of};

use base_types::{Choice, List, Memory, TryCopy, TupleList};
use std::alloc::Global;

/// What asks, or draws an unknown, in an update: the mapping of this number; the hidden mapping that repairs it (`_fix_m`); or
/// the hidden mapping that draws new unknowns (`_new`).
#[derive(Clone, Copy, Debug, PartialEq, Eq)]
pub enum Source {
    By(u16),
    Fix(u16),
    Draw,
}

/// Which question it is: its mapping, and by names its wanted tuple, or the tuples of which some must go.
#[derive(Drop)]
pub struct Asked {
    pub source: Source,
    pub tuples: TupleList,
}

/// An answer: the question that it answers, and the choice, whose tuples are by names.
#[derive(Drop)]
pub struct Given {
    pub choice: Choice,
    pub asked: Asked,
}

/// Answers in the order in which they are taken.
pub type GivenList = List<Given>;

impl TryCopy for Asked {
    ghost Meaning = { AskedMeant };

    ghost meaning = { asked_of };

    fn copy(&self, alloc: Global) -> Result<Asked, Memory>
        ensures same { IfOk result (λ copy. asked_of copy ≡ asked_of self.now) }
    {
        Ok(Asked {
            source: self.source,
            tuples: self.tuples.copy(alloc)?,
        })
    }
}

impl TryCopy for Given {
    ghost Meaning = { GivenMeant };

    ghost meaning = { given_of };

    fn copy(&self, alloc: Global) -> Result<Given, Memory>
        ensures same { IfOk result (λ copy. given_of copy ≡ given_of self.now) }
    {
        Ok(Given {
            choice: self.choice.copy(alloc)?,
            asked: self.asked.copy(alloc)?,
        })
    }
}

//! Tuples as a line spells them: some of their values may be new unknowns.
ghost use Rattle.std.specs.Prelude.{◌≡◌, IfOk};
ghost use Rattle.def_workspace.specs.Lines.{Spelled as SpelledMeant, SpelledFact};
ghost use Rattle.ws_lines.specs.Meanings.{spelled_of, spelled_fact_of};

use base_types::{List, Memory, TryCopy, Value};
use std::alloc::Global;

/// A value of a line: a known one, or an unknown that is new with the line, given by its number, from 1 on.
#[derive(Drop)]
pub enum Spelled {
    Known(Value),
    New(u32),
}

/// The values of a tuple of a line, by column.
pub type SpelledList = List<Spelled>;

/// A tuple of a line, which may have new unknowns.
#[derive(Drop)]
pub struct SpelledTuple {
    pub relation: u16,
    pub values: SpelledList,
}

/// Tuples of a line.
pub type SpelledTupleList = List<SpelledTuple>;

impl TryCopy for Spelled {
    ghost Meaning = { SpelledMeant };

    ghost meaning = { spelled_of };

    fn copy(&self, alloc: Global) -> Result<Spelled, Memory>
        ensures same { IfOk result (λ copy. spelled_of copy ≡ spelled_of self.now) }
    {
        match self {
            Spelled::Known(value) => Ok(Spelled::Known(value.copy(alloc)?)),
            Spelled::New(number) => Ok(Spelled::New(*number)),
        }
    }
}

impl TryCopy for SpelledTuple {
    ghost Meaning = { SpelledFact };

    ghost meaning = { spelled_fact_of };

    fn copy(&self, alloc: Global) -> Result<SpelledTuple, Memory>
        ensures same { IfOk result (λ copy. spelled_fact_of copy ≡ spelled_fact_of self.now) }
    {
        Ok(SpelledTuple {
            relation: self.relation,
            values: self.values.copy(alloc)?,
        })
    }
}

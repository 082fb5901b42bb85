//! The updates of curators, the writes of the chase, and the answers of people to its questions.
ghost use Rattle.std.specs.Prelude.{◌≡◌, IfOk};
ghost use Rattle.def_chase.specs.Repository.{Change};
ghost use Rattle.def_chase.specs.Updates.{Operation as OperationMeant, Choice as ChoiceMeant, direction_of};
ghost use Rattle.base_types.specs.Meanings.{change_of, operation_of, choice_of, heading_of, Request, request_of};

use crate::copying::TryCopy;
use crate::lists::{List, Name};
use crate::nulls::Null;
use crate::tuples::{Tuple, TupleList};
use crate::values::Value;
use def_memory::Memory;
use std::alloc::Global;

/// A write: the insertion or the deletion of one tuple.
#[derive(Debug, Drop)]
pub enum Write {
    Insert(Tuple),
    Delete(Tuple),
}

/// Writes, in the order in which they are made.
pub type WriteList = List<Write>;

/// The operation of an update: insert a tuple, delete a tuple, replace a null by a value wherever it stands, or put the mapping
/// of this number in force. Each null in it has attempt 0.
#[derive(Debug, Drop)]
pub enum Operation {
    Insert(Tuple),
    Delete(Tuple),
    Replace(Null, Value),
    Enact(u16),
}

/// An update: its label, who asks for it, and what it asks for.
#[derive(Debug, Drop)]
pub struct Update {
    pub label: Name,
    pub curator: Name,
    pub operation: Operation,
}

/// Updates by number; the first has number 1.
pub type UpdateList = List<Update>;

/// An answer to a question of the chase: insert the generated tuple as it is, unify it with this candidate, or
/// delete these tuples of the violation's image. Tuples are named by their outer forms.
#[derive(Debug, Drop)]
pub enum Choice {
    Expand,
    Unify(Tuple),
    Delete(TupleList),
}

/// Answers, in the order in which they are taken.
pub type ChoiceList = List<Choice>;

/// Whether an update's violations are repaired by inserting what is missing or by deleting what is there too much.
#[derive(Clone, Copy, Debug, PartialEq, Eq)]
pub enum Direction {
    Forward,
    Backward,
}

impl Operation {
    /// The direction of the update's repairs: a deletion is repaired by further deletions, everything else by insertions.
    pub fn direction(&self) -> Direction
        ensures heading { heading_of result ≡ direction_of (operation_of self.now) }
    {
        match self {
            Operation::Insert(_) => Direction::Forward,
            Operation::Delete(_) => Direction::Backward,
            Operation::Replace(_, _) => Direction::Forward,
            Operation::Enact(_) => Direction::Forward,
        }
    }
}

impl TryCopy for Write {
    ghost Meaning = { Change };

    ghost meaning = { change_of };

    fn copy(&self, alloc: Global) -> Result<Write, Memory>
        ensures same { IfOk result (λ copy. change_of copy ≡ change_of self.now) }
    {
        match self {
            Write::Insert(tuple) => Ok(Write::Insert(tuple.copy(alloc)?)),
            Write::Delete(tuple) => Ok(Write::Delete(tuple.copy(alloc)?)),
        }
    }
}

impl TryCopy for Operation {
    ghost Meaning = { OperationMeant };

    ghost meaning = { operation_of };

    fn copy(&self, alloc: Global) -> Result<Operation, Memory>
        ensures same { IfOk result (λ copy. operation_of copy ≡ operation_of self.now) }
    {
        match self {
            Operation::Insert(tuple) => Ok(Operation::Insert(tuple.copy(alloc)?)),
            Operation::Delete(tuple) => Ok(Operation::Delete(tuple.copy(alloc)?)),
            Operation::Replace(null, value) => { Ok(Operation::Replace(*null, value.copy(alloc)?)) }
            Operation::Enact(mapping) => Ok(Operation::Enact(*mapping)),
        }
    }
}

impl TryCopy for Update {
    ghost Meaning = { Request };

    ghost meaning = { request_of };

    fn copy(&self, alloc: Global) -> Result<Update, Memory>
        ensures same { IfOk result (λ copy. request_of copy ≡ request_of self.now) }
    {
        Ok(Update {
            label: self.label.copy(alloc)?,
            curator: self.curator.copy(alloc)?,
            operation: self.operation.copy(alloc)?,
        })
    }
}

impl TryCopy for Choice {
    ghost Meaning = { ChoiceMeant };

    ghost meaning = { choice_of };

    fn copy(&self, alloc: Global) -> Result<Choice, Memory>
        ensures same { IfOk result (λ copy. choice_of copy ≡ choice_of self.now) }
    {
        match self {
            Choice::Expand => Ok(Choice::Expand),
            Choice::Unify(tuple) => Ok(Choice::Unify(tuple.copy(alloc)?)),
            Choice::Delete(tuples) => Ok(Choice::Delete(tuples.copy(alloc)?)),
        }
    }
}

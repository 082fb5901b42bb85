//! The writes and counts of an attempt, and a copy of it.
ghost use Rattle.std.specs.Prelude.{◌≡◌, ◌≤◌, ◌↔◌, map, IfOk, IsTrue};
ghost use Rattle.def_steps.specs.Attempts.{Look};
ghost use Rattle.def_chase.specs.Updates.{direction_of};
ghost use Rattle.base_types.specs.Contents.{changes_of};
ghost use Rattle.base_types.specs.Meanings.{change_of, heading_of};
ghost use mathlib.Core.List.{IsPrefix};

use crate::attempts::Attempt;
use crate::own::Own;
use crate::points::Point;
use crate::repairing::is_repaired;
use crate::rows::Row;
use base_types::{Direction, Memory, TryCopy, WriteList};
use std::alloc::Global;

impl Attempt {
    /// The writes that the attempt has made, in order.
    pub fn own(&self) -> &WriteList
        ensures own { map change_of result.now.items ≡ self.now.attempt.own }
    {
        self.parts.own.list()
    }

    /// The writes that the attempt has made, in order; it consumes the attempt.
    pub fn into_own(self, alloc: Global) -> Result<WriteList, Memory>
        ensures own { IfOk result (λ own. map change_of own.items ≡ self.attempt.own) }
    {
        let parts = Box::into_inner(self.parts);
        parts.own.into_list(alloc)
    }

    /// A copy on which to make the next step. It takes over the list that the attempt keeps for further writes. The attempt means
    /// the same as before.
    pub fn branch(&mut self, alloc: Global) -> Result<Attempt, Memory>
        ensures same { IfOk result (λ branch. branch ≡ self.old) }
        ensures stays { self.new ≡ self.old }
    {
        let own = self.parts.own.branch(alloc)?;
        self.with(alloc, own)
    }

    // A copy with the writes `own`, which must be the attempt's.
    fn with(&self, alloc: Global, own: Own) -> Result<Attempt, Memory>
        requires own { changes_of own ≡ self.now.attempt.own }
        ensures same { IfOk result (λ copy. copy ≡ self.now) }
    {
        let from = &*self.parts;
        let operation = from.operation.copy(alloc)?;
        let mut copy = Attempt::at_start(alloc, from.number, from.attempt, operation)?;
        let parts = &mut *copy.parts;
        parts.point = from.point.copy(alloc)?;
        parts.own = own;
        parts.steps = from.steps;
        parts.nulls = from.nulls;
        parts.taken = from.taken;
        parts.hand = from.hand;
        Ok(copy)
    }

    /// Lets copies of the attempt share its writes from now on. It may keep the list of `before` for further writes. The attempt
    /// means the same as before.
    pub fn share(&mut self, alloc: Global, before: &Attempt) -> Result<(), Memory>
        requires first { IsPrefix before.now.attempt.own self.old.attempt.own }
        ensures same { self.new ≡ self.old }
    {
        self.parts.own.share(alloc, &before.parts.own)?;
        Ok(())
    }

    /// The number of steps that it has made.
    pub fn steps(&self) -> u32
        ensures steps { result ≡ self.now.attempt.steps }
        ensures most { result ≤ 1000001 }
    {
        self.parts.steps
    }

    /// The number of nulls that it has drawn.
    pub fn nulls(&self) -> u32
        ensures nulls { result ≡ self.now.attempt.nulls }
    {
        self.parts.nulls
    }

    /// The number of answers to questions that it has taken.
    pub fn taken(&self) -> u32
        ensures taken { result ≡ self.now.attempt.taken }
        ensures most { result ≤ self.now.attempt.steps }
    {
        self.parts.taken
    }

    /// Whether its next step, or the step in hand, is a look.
    pub fn is_looking(&self) -> bool
        ensures looking { IsTrue result ↔ (self.now.attempt.phase ≡ Look) }
    {
        match &self.parts.point {
            Point::Start => false,
            Point::Look => true,
            Point::Repair(repair) => is_repaired(repair),
            Point::Ended(_) => false,
            Point::Reading(reading) => matches!(reading.row, Row::Forcing(_) | Row::Violating(_)),
        }
    }

    /// The direction of its repairs.
    pub fn direction(&self) -> Direction
        ensures heading { heading_of result ≡ direction_of self.now.attempt.operation }
    {
        self.parts.operation.direction()
    }
}

impl TryCopy for Attempt {
    ghost use Rattle.chase_update.specs.Courses.{State};

    ghost Meaning = { State };

    ghost meaning = { λ s. s };

    fn copy(&self, alloc: Global) -> Result<Attempt, Memory>
        ensures same { IfOk result (λ copy. copy ≡ self.now) }
    {
        let own = self.parts.own.copy(alloc)?;
        self.with(alloc, own)
    }
}

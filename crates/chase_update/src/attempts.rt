//! An attempt at an update, step by step.
ghost use Rattle.std.specs.Prelude.{◌≡◌, ◌<◌, ◌≤◌, true, false, None, List, is_some, IfOk, OnOk, OnErr};
ghost use Rattle.def_chase.specs.Mappings.{Rule};
ghost use Rattle.base_types.specs.Meanings.{choice_of, operation_of};
ghost use Rattle.chase_query.specs.Meanings.{reply_of};
ghost use Rattle.def_steps.specs.Attempts.{question_in, Look, Start};
ghost use Rattle.def_steps.specs.Steps.{moved};
ghost use Rattle.chase_update.specs.Courses.{between, counted, course, first_asked};
ghost use Rattle.chase_update.specs.Wishes.{wish, WishesStep, query_wished, TakesAnswer, Fits};
ghost use Rattle.chase_repair.specs.Meanings.{DrawsFrom};
ghost use Rattle.chase_update.specs.PointMeanings.{want_of};
ghost use Rattle.chase_update.specs.Transitions.{IsAtStart, HasBegun, HasAnswered, HasChosen, HasLooked, StaysWhileAsking};
ghost use Rattle.chase_update.specs.TurnMeanings.{move_of, HasFollowed, IsTurnOf};

use crate::answering::answered;
use crate::counting::{spend, taken_after};
use crate::ends::Want;
use crate::looking::look;
use crate::moves::Move;
use crate::own::Own;
use crate::passing::{looks_on, next_from_start, violation_asked};
use crate::points::Point;
use crate::repairing::{generates, want_of_repair};
use crate::starting::{is_yes, start};
use crate::turns::Turn;
use base_limits::{Budget, Mappings};
use base_types::{Choice, Memory, Operation, TryCopy, Update};
use chase_query::Reply;
use chase_repair::{Fresh, Progress, boxed};
use std::alloc::Global;
use std::marker::Model;

/// The step in hand: its budget, and whether it takes the answer to a question.
#[derive(Clone, Copy, Debug)]
pub(crate) struct Hand {
    pub(crate) budget: Budget,
    pub(crate) answers: bool,
}

/// An attempt at an update, which asks queries and questions, takes their answers, and makes the steps of the chase. It is a
/// pointer, so it is cheap to move. Contracts see it as a `State`: the attempt, and the step in hand.
#[derive(Debug, Drop)]
pub struct Attempt {
    pub(crate) parts: Box<Parts>,
}

/// The parts of an attempt: its update, its writes, its counts, and its point.
#[derive(Debug, Drop)]
pub(crate) struct Parts {
    pub(crate) number: u32,
    pub(crate) attempt: u32,
    pub(crate) operation: Operation,
    pub(crate) own: Own,
    pub(crate) steps: u32,
    pub(crate) nulls: u32,
    pub(crate) taken: u32,
    pub(crate) hand: Hand,
    pub(crate) point: Point,
}

impl Model for Attempt {
    ghost use Rattle.chase_update.specs.Courses.{State};

    ghost Value = { State };

    ghost use Rattle.chase_update.specs.Views.{state_of, IsCounted};

    ghost view = { λ p. state_of p.parts.value };

    ghost invariant = { λ p. IsCounted p.parts.value };
}

impl Attempt {
    /// Attempt number `attempt` at the update, at its start. `number` is the update's.
    pub fn start(
        alloc: Global,
        update: &Update,
        number: u32,
        attempt: u32,
    ) -> Result<Attempt, Memory>
        ensures begun { IfOk result (IsAtStart number attempt (operation_of update.now.operation)) }
    {
        let operation = update.operation.copy(alloc)?;
        Attempt::at_start(alloc, number, attempt, operation)
    }

    /// Attempt number `attempt` at the operation, at its start. `number` is the update's.
    pub(crate) fn at_start(
        alloc: Global,
        number: u32,
        attempt: u32,
        operation: Operation,
    ) -> Result<Attempt, Memory>
        ensures begun { IfOk result (IsAtStart number attempt (operation_of operation)) }
    {
        let parts = Parts {
            number,
            attempt,
            operation,
            own: Own::none(alloc),
            steps: 0,
            nulls: 0,
            taken: 0,
            hand: Hand {
                budget: Budget::new(1),
                answers: false,
            },
            point: Point::Start,
        };
        Ok(Attempt {
            parts: boxed(alloc, parts)?,
        })
    }

    /// What the attempt wants next. This is the answer to a query exactly if the step in hand asks that query first; otherwise it
    /// is what the attempt wants between two steps.
    #[inline]
    pub fn wants(&self) -> Want<'_>
        ensures want { want_of result ≡ wish self.now }
        ensures first { (ms : List Rule) →
            first_asked (course ms self.now) ≡ query_wished (want_of result) }
        ensures rests { query_wished (want_of result) ≡ None → self.now.reading ≡ None }
    {
        match &self.parts.point {
            Point::Start => Want::NextStep,
            Point::Look => Want::NextStep,
            Point::Repair(repair) => want_of_repair(repair),
            Point::Ended(end) => Want::Ended(end.outer()),
            Point::Reading(reading) => Want::Read(&reading.query),
        }
    }

    /// Begins the next step, up to its first query or its end. The budget is the attempt's: if it has not ended with the last
    /// step of the budget, it is spent. While the step asks, the attempt is unchanged.
    pub fn begin(
        &mut self,
        alloc: Global,
        mappings: &Mappings<'_>,
        budget: Budget,
    ) -> Result<(), Memory>
        requires next { wish self.old ≡ WishesStep }
        requires left { self.old.attempt.steps < budget }
        ensures step { OnOk result (HasBegun mappings.now budget self.old self.new) }
        ensures attempt { StaysWhileAsking self.old self.new }
        ensures err { OnErr result (self.new ≡ self.old) }
    {
        let hand = Hand {
            budget,
            answers: false,
        };
        match &mut self.parts.point {
            Point::Start => self.operate(alloc, hand),
            Point::Look => self.look(alloc, mappings, hand),
            Point::Repair(repair) => {
                if !generates(repair) {
                    return self.look(alloc, mappings, hand);
                }
                repair.begin(alloc, mappings)?;
                self.parts.hand = hand;
                Ok(())
            }
            _ => unreachable!(),
        }
    }

    // Begins the step of the operation. It is a function of its own, since the step is rare and its result is large.
    fn operate(&mut self, alloc: Global, hand: Hand) -> Result<(), Memory>
        requires left { self.old.attempt.steps < hand.budget }
        requires phase { self.old.attempt.phase ≡ Start }
        requires answers { hand.answers ≡ false }
        ensures step { (ms : List Rule) →
            OnOk result (HasBegun ms hand.budget self.old self.new) }
        ensures attempt { StaysWhileAsking self.old self.new }
        ensures err { OnErr result (self.new ≡ self.old) }
    {
        let turn = start(alloc, &self.parts.operation)?;
        self.follow(alloc, turn, hand)
    }

    // Begins a look.
    fn look(&mut self, alloc: Global, mappings: &Mappings<'_>, hand: Hand) -> Result<(), Memory>
        requires left { self.old.attempt.steps < hand.budget }
        requires phase { self.old.attempt.phase ≡ Look }
        requires answers { hand.answers ≡ false }
        ensures step { OnOk result (HasLooked mappings.now hand.budget self.old self.new) }
        ensures attempt { StaysWhileAsking self.old self.new }
        ensures err { OnErr result (self.new ≡ self.old) }
    {
        match next_from_start(self.parts.number, 0, mappings) {
            Some(place) => {
                let parts = &mut *self.parts;
                parts.point = Point::Reading(violation_asked(place));
                parts.hand = hand;
                Ok(())
            }
            None => {
                let turn = look(alloc, self.parts.number, 0, mappings)?;
                self.follow(alloc, turn, hand)
            }
        }
    }

    /// Takes the answer to the present query, and goes on with it up to the next query or the end of the step. While the step
    /// asks, the attempt is unchanged.
    pub fn take(
        &mut self,
        alloc: Global,
        answer: &Reply,
        mappings: &Mappings<'_>,
    ) -> Result<(), Memory>
        requires kind { TakesAnswer mappings.now (wish self.old) (reply_of answer.now) }
        ensures step { OnOk result (HasAnswered mappings.now answer.now self.old self.new) }
        ensures attempt { StaysWhileAsking self.old self.new }
        ensures err { OnErr result (self.new ≡ self.old) }
    {
        if self.looks_on(answer, mappings) {
            return Ok(());
        }
        self.goes_on(alloc, answer, mappings)
    }

    // If a look finds no violation of a mapping, and the next mapping that may be in force is so from the start, goes on to it in
    // place and returns true. Otherwise nothing changes.
    fn looks_on(&mut self, answer: &Reply, mappings: &Mappings<'_>) -> bool
        ensures step { result ≡ true → HasAnswered mappings.now answer.now self.old self.new }
        ensures attempt { self.new.attempt ≡ self.old.attempt }
        ensures stays { result ≡ false → self.new ≡ self.old }
    {
        let parts = &mut *self.parts;
        match &mut parts.point {
            Point::Reading(reading) => looks_on(reading, parts.number, answer, mappings),
            Point::Start => false,
            Point::Look => false,
            Point::Repair(_) => false,
            Point::Ended(_) => false,
        }
    }

    // Goes on with the answer up to the next query or the end of the step.
    fn goes_on(
        &mut self,
        alloc: Global,
        answer: &Reply,
        mappings: &Mappings<'_>,
    ) -> Result<(), Memory>
        requires kind { TakesAnswer mappings.now (wish self.old) (reply_of answer.now) }
        ensures step { OnOk result (HasAnswered mappings.now answer.now self.old self.new) }
        ensures attempt { StaysWhileAsking self.old self.new }
        ensures err { OnErr result (self.new ≡ self.old) }
    {
        let hand = self.parts.hand;
        let fresh = self.fresh();
        let parts = &mut *self.parts;
        match &mut parts.point {
            Point::Reading(reading) => {
                match answered(alloc, &parts.operation, fresh, reading, answer, mappings)? {
                    Some(turn) => self.follow(alloc, turn, hand),
                    None => {
                        let there = is_yes(answer);
                        parts
                            .own
                            .write(alloc, &parts.operation, &mut parts.point, there)?;
                        self.land(0, hand);
                        Ok(())
                    }
                }
            }
            Point::Repair(repair) => {
                match parts.own.answer(alloc, repair, answer, mappings)? {
                    Progress::Asks => {}
                    Progress::Ends => self.land(0, hand),
                }
                Ok(())
            }
            _ => unreachable!(),
        }
    }

    /// Takes an answer that fits the question, and makes the step of the answer up to its first query or its end. The budget is
    /// as for `begin`. While the step asks, the attempt is unchanged.
    pub fn choose(
        &mut self,
        alloc: Global,
        choice: &Choice,
        mappings: &Mappings<'_>,
        budget: Budget,
    ) -> Result<(), Memory>
        requires fits { Fits (wish self.old) (choice_of choice.now) }
        requires left { self.old.attempt.steps < budget }
        ensures step { OnOk result (HasChosen mappings.now budget choice.now self.old self.new) }
        ensures attempt { StaysWhileAsking self.old self.new }
        ensures err { OnErr result (self.new ≡ self.old) }
    {
        let hand = Hand {
            budget,
            answers: true,
        };
        let parts = &mut *self.parts;
        match &mut parts.point {
            Point::Repair(repair) => {
                match parts.own.choose(alloc, repair, choice, mappings)? {
                    Progress::Asks => parts.hand = hand,
                    Progress::Ends => self.land(0, hand),
                }
                Ok(())
            }
            _ => unreachable!(),
        }
    }

    // Takes over the turn of the step: the query that it asks next, or its end.
    fn follow(&mut self, alloc: Global, turn: Turn, hand: Hand) -> Result<(), Memory>
        requires left { self.old.attempt.steps < hand.budget }
        requires answers { hand.answers ≡ is_some (question_in self.old.attempt.phase) }
        requires turn { IsTurnOf self.old.attempt.phase turn }
        ensures step { OnOk result (HasFollowed hand.budget turn self.old self.new) }
        ensures attempt { StaysWhileAsking self.old self.new }
        ensures err { OnErr result (self.new ≡ self.old) }
    {
        match turn {
            Turn::Asks(reading) => {
                let parts = &mut *self.parts;
                parts.point = Point::Reading(reading);
                parts.hand = hand;
                Ok(())
            }
            Turn::Moves(step) => self.make(alloc, step, hand),
        }
    }

    // Ends the step: takes over its writes and its point, and counts it.
    fn make(&mut self, alloc: Global, step: Move, hand: Hand) -> Result<(), Memory>
        requires left { self.old.attempt.steps < hand.budget }
        requires answers { hand.answers ≡ is_some (question_in self.old.attempt.phase) }
        ensures moved { OnOk result (self.new ≡
            between (moved hand.budget self.old.attempt (move_of step))) }
        ensures err { OnErr result (self.new ≡ self.old) }
    {
        let parts = &mut *self.parts;
        parts.own.append(alloc, step.writes)?;
        parts.point = step.point;
        self.land(step.drawn, hand);
        Ok(())
    }

    // Counts a step whose writes and point are taken over already.
    fn land(&mut self, drawn: u32, hand: Hand)
        requires rests { self.old.reading ≡ None }
        requires few { drawn ≤ 64 }
        requires left { self.old.attempt.steps < hand.budget }
        ensures counted { self.new ≡
            between (counted hand.budget hand.answers drawn self.old.attempt) }
    {
        hand.budget.is_within();
        let parts = &mut *self.parts;
        parts.steps += 1;
        parts.nulls += drawn;
        parts.taken = taken_after(parts.taken, hand.answers);
        spend(&mut parts.point, parts.steps, hand.budget);
    }

    // The source of the attempt's next nulls.
    fn fresh(&self) -> Fresh
        ensures draws { DrawsFrom self.now.attempt result }
        ensures room { result.drawn ≤ 64000064 }
    {
        Fresh {
            update: self.parts.number,
            attempt: self.parts.attempt,
            drawn: self.parts.nulls,
        }
    }
}

//! An update with its present attempt, and what others see of it.
ghost use Rattle.std.specs.Prelude.{◌≡◌};
ghost use Rattle.audit_updates.specs.Programs.{IsBetween, HasWritten};
ghost use Rattle.audit_updates.specs.Standings.{HasTrail, IsOver, IsLive};

use crate::outcomes::{outcome, shown};
use base_types::{Choice, ChoiceList, Write};
use chase_plan::Plan;
use chase_query::ReadLog;
use chase_update::Attempt;
use std::collections::VecDeque;

/// An update with its present attempt, between two steps: the reads of that attempt, whether the update was withdrawn, the
/// answers delivered, and the recorded answers that are not delivered yet.
#[derive(Debug, Drop)]
pub struct AuditedUpdate {
    pub program: Attempt,
    pub log: ReadLog,
    pub withdrawn: bool,
    pub answers: ChoiceList,
    pub inbox: VecDeque<Choice>,
}

impl AuditedUpdate {
    /// The number of the update.
    pub fn number(&self) -> u32
        ensures number { result ≡ self.now.program.attempt.number }
    {
        self.program.number()
    }

    /// The update's writes that others see: none if it was withdrawn, or if its attempt ended spent or refused.
    pub fn trail(&self) -> &[Write]
        requires between { IsBetween self.now.program }
        ensures trail { HasTrail self.now result.now }
    {
        if self.withdrawn {
            return &[];
        }
        shown(&self.program)
    }

    /// The writes that the step of the plan shows: none if the attempt ends spent or refused by that step.
    pub fn written<'a>(&self, plan: &'a Plan) -> &'a [Write]
        requires between { IsBetween plan.now.program }
        ensures written { HasWritten self.now plan.now result.now }
    {
        let shown = shown(&plan.program);
        let made = self.program.own().len();
        if made <= shown.len() {
            &shown[made..]
        } else {
            &[]
        }
    }

    /// Whether the update was withdrawn or its attempt has ended.
    pub fn is_over(&self) -> bool
        requires between { IsBetween self.now.program }
        ensures over { IsOver self.now result }
    {
        self.withdrawn || outcome(&self.program).is_some()
    }

    /// Whether the update `number` is neither withdrawn nor committed, if `committed` updates are committed.
    pub fn is_live(&self, committed: u32, number: u32) -> bool
        ensures live { IsLive committed number self.now result }
    {
        committed < number && !self.withdrawn
    }
}

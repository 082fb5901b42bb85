//! What an update may do next.
ghost use Rattle.std.specs.Prelude.{◌≡◌, ◌+◌, ◌<◌, true, not, map};
ghost use Rattle.std.specs.Option.{option_map, option_copied};
ghost use Rattle.base_types.specs.Meanings.{choice_of};
ghost use Rattle.core_entries.specs.Meanings.{standing_of};
ghost use Rattle.chase_question.specs.Inquiries.{inquiry_of};
ghost use Rattle.def_machine.specs.Standings.{Paused, is_nil, is_ready as is_ready_def, is_pending as is_pending_def, is_paused as is_paused_def};
ghost use Rattle.chase_update.specs.PointMeanings.{end_of};
ghost use Rattle.chase_update.specs.Results.{lack_of};
ghost use Rattle.audit_updates.specs.Settings.{settings_of};
ghost use Rattle.audit_updates.specs.Programs.{IsBetween, HasNext};
ghost use Rattle.audit_updates.specs.Standings.{HasStanding, IsReady, IsDeliverable, Takes, FitsQuestion};
ghost use Rattle.audit_updates.specs.Wants.{unless_fits as unless_fits_def, HasLack, IsHeld, WantsNext, StandsEnded, StandsGoing};

use crate::outcomes::{asked, outcome};
use crate::settings::Settings;
use crate::updates::AuditedUpdate;
use base_types::Choice;
use chase_question::{Question, fits};
use chase_update::{Lack, Outcome};
use core_entries::Standing;

impl AuditedUpdate {
    /// The next answer for the attempt, which has one only at a question. If the update is ready, its next step uses exactly this
    /// answer.
    pub fn next_answer(&self) -> Option<&Choice>
        requires between { IsBetween self.now.program }
        ensures next { HasNext self.now (option_map choice_of (option_copied result)) }
        ensures wanted { WantsNext self.now (option_map choice_of (option_copied result)) }
    {
        if asked(&self.program).is_some() {
            self.answers.get(self.program.taken() as usize)
        } else {
            None
        }
    }

    /// What the update `number` may do next, if `committed` updates are committed.
    pub fn standing(&self, settings: Settings, committed: u32, number: u32) -> Standing
        requires between { IsBetween self.now.program }
        ensures standing { HasStanding (settings_of settings) committed number self.now result }
    {
        if self.withdrawn {
            return Standing::Withdrawn;
        }
        match outcome(&self.program) {
            Some(outcome) => ended(outcome),
            None => self.standing_going(settings, committed, number),
        }
    }

    /// Whether the update may make a step.
    pub fn is_ready(&self, settings: Settings, committed: u32, number: u32) -> bool
        requires between { IsBetween self.now.program }
        ensures ready { IsReady (settings_of settings) committed number self.now result }
    {
        is_ready(self.standing(settings, committed, number))
    }

    /// Whether a recorded answer may be delivered to the update: it is pending, and has one.
    pub fn is_deliverable(&self, settings: Settings, committed: u32, number: u32) -> bool
        requires between { IsBetween self.now.program }
        ensures deliverable { IsDeliverable (settings_of settings) committed number self.now
            result }
    {
        let pending = is_pending(self.standing(settings, committed, number));
        let recorded = self.has_recorded();
        pending && recorded
    }

    /// Whether the update takes the choice as an answer: it is paused, and the choice answers its question.
    pub fn takes(&self, settings: Settings, committed: u32, number: u32, choice: &Choice) -> bool
        requires between { IsBetween self.now.program }
        ensures takes { Takes (settings_of settings) committed number (choice_of choice.now)
            self.now result }
    {
        let paused = is_paused(self.standing(settings, committed, number));
        let fits = self.fits(choice);
        paused && fits
    }

    // Whether the choice answers the question that the attempt is at, if it is at one.
    fn fits(&self, choice: &Choice) -> bool
        requires between { IsBetween self.now.program }
        ensures fits { FitsQuestion (choice_of choice.now) self.now result }
    {
        match asked(&self.program) {
            Some(question) => fits(question, choice),
            None => false,
        }
    }

    // The standing of an update that is not withdrawn and whose attempt has not ended.
    fn standing_going(&self, settings: Settings, committed: u32, number: u32) -> Standing
        requires between { IsBetween self.now.program }
        ensures standing { StandsGoing (settings_of settings) committed number self.now
            (standing_of result) }
    {
        if self.is_held(settings, committed, number) {
            return Standing::Held(committed + 1);
        }
        match self.lack() {
            Some(lack) => paused(lack),
            None => Standing::Ready,
        }
    }

    // Whether the update was restarted too often to go on beside lower updates.
    fn is_held(&self, settings: Settings, committed: u32, number: u32) -> bool
        ensures held { IsHeld (settings_of settings) committed number self.now result }
        ensures room { result ≡ true → committed + 1 < number }
    {
        settings.retries < self.program.attempt() && u64::from(committed) + 1 < u64::from(number)
    }

    // Whether a recorded answer is not delivered yet.
    fn has_recorded(&self) -> bool
        ensures recorded { result ≡ not (is_nil (map choice_of self.now.inbox.items)) }
    {
        !self.inbox.is_empty()
    }

    /// What is lacking at the update's question, if it is at one and something is lacking.
    pub fn lack(&self) -> Option<Lack>
        requires between { IsBetween self.now.program }
        ensures lack { HasLack self.now (option_map lack_of result) }
    {
        match asked(&self.program) {
            Some(question) => {
                unless_fits(question, self.answers.get(self.program.taken() as usize))
            }
            None => None,
        }
    }
}

// The standing of an update whose attempt has this end.
fn ended(outcome: Outcome) -> Standing
    ensures ended { StandsEnded (end_of outcome) (standing_of result) }
{
    match outcome {
        Outcome::Done => Standing::Done,
        Outcome::Spent => Standing::Spent,
        Outcome::Refused { .. } => Standing::Refused,
    }
}

// The standing of an update at a question, by what is lacking.
fn paused(lack: Lack) -> Standing
    ensures paused { standing_of result ≡ Paused (lack_of lack) }
{
    match lack {
        Lack::Missing => Standing::Pending,
        Lack::Misfit => Standing::Misfit,
    }
}

// What is lacking at the question, given the next answer if there is one.
fn unless_fits(question: &Question, next: Option<&Choice>) -> Option<Lack>
    ensures lack { option_map lack_of result ≡ unless_fits_def (inquiry_of question.now)
        (option_map choice_of (option_copied next.entry)) }
{
    match next {
        Some(choice) => if fits(question, choice) {
            None
        } else {
            Some(Lack::Misfit)
        },
        None => Some(Lack::Missing),
    }
}

// Whether the update may make a step.
fn is_ready(standing: Standing) -> bool
    ensures ready { result ≡ is_ready_def (standing_of standing) }
{
    matches!(standing, Standing::Ready)
}

// Whether the update is at a question without a next answer.
fn is_pending(standing: Standing) -> bool
    ensures pending { result ≡ is_pending_def (standing_of standing) }
{
    matches!(standing, Standing::Pending)
}

// Whether the update is at a question that its next answer does not end.
fn is_paused(standing: Standing) -> bool
    ensures paused { result ≡ is_paused_def (standing_of standing) }
{
    matches!(standing, Standing::Pending | Standing::Misfit)
}

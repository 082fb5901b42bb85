//! People's answers to the questions of updates.
ghost use Rattle.std.specs.Prelude.{◌≡◌, length, true, IfOk, IfErr, OnOk, OnErr};
ghost use Rattle.base_types.specs.Meanings.{choice_of};
ghost use Rattle.def_machine.specs.Effects.{Answers};
ghost use Rattle.core_engine.specs.Events.{HasMade};
ghost use Rattle.core_engine.specs.LiveCalls.{AnswersAnswer, fits_at, is_paused_in};
ghost use Rattle.core_engine.specs.States.{standing_at};

use crate::answers::answer_at;
use crate::cores::Core;
use crate::refusals::AnswerRefusal;
use crate::standings::place_of;
use base_types::Choice;
use chase_question::fits;
use core_entries::Standing;
use std::alloc::Global;

impl<'s> Core<'s> {
    /// Answers the question at which the update is paused, and returns the number of the entry. Answers that were delivered for
    /// later questions are dropped. On an error the choice is handed back, and the core is unchanged.
    pub fn answer(
        &mut self,
        alloc: Global,
        update: u32,
        choice: Choice,
    ) -> Result<u64, (AnswerRefusal, Choice)>
        ensures made { OnOk result (HasMade self.old (Answers update (choice_of choice)) self.new) }
        ensures number { IfOk result (λ n. n ≡ length self.new.history) }
        ensures kept { OnErr result (self.new ≡ self.old) }
        ensures answer { AnswersAnswer (standing_at self.old update)
            (fits_at self.old update (choice_of choice)) result }
        ensures back { IfErr result (λ refused. choice_of refused.1 ≡ choice_of choice) }
    {
        match self.standing(update) {
            None => Err((AnswerRefusal::NoSuchUpdate, choice)),
            Some(Standing::Pending | Standing::Misfit) => self.answer_paused(alloc, update, choice),
            Some(standing) => Err((AnswerRefusal::NotPaused(standing), choice)),
        }
    }

    // Answers the question of the update, which is paused, if the choice fits.
    fn answer_paused(
        &mut self,
        alloc: Global,
        update: u32,
        choice: Choice,
    ) -> Result<u64, (AnswerRefusal, Choice)>
        requires paused { is_paused_in (standing_at self.old update) ≡ true }
        ensures made { OnOk result (HasMade self.old (Answers update (choice_of choice)) self.new) }
        ensures number { IfOk result (λ n. n ≡ length self.new.history) }
        ensures kept { OnErr result (self.new ≡ self.old) }
        ensures answer { AnswersAnswer (standing_at self.old update)
            (fits_at self.old update (choice_of choice)) result }
        ensures back { IfErr result (λ refused. choice_of refused.1 ≡ choice_of choice) }
    {
        if !self.fits(update, &choice) {
            return Err((AnswerRefusal::Misfit, choice));
        }
        match self.make_answer(alloc, update, choice) {
            Ok(number) => Ok(number),
            Err(choice) => Err((AnswerRefusal::Memory, choice)),
        }
    }

    // Whether the choice answers the question at which the update is paused.
    fn fits(&self, update: u32, choice: &Choice) -> bool
        ensures fits { result ≡ fits_at self.now update (choice_of choice.now) }
    {
        match self.question(update) {
            Some(question) => fits(question, choice),
            None => false,
        }
    }

    // Answers the question of the update, which is paused; the choice fits. On an error the choice is handed back.
    fn make_answer(&mut self, alloc: Global, update: u32, choice: Choice) -> Result<u64, Choice>
        requires paused { is_paused_in (standing_at self.old update) ≡ true }
        requires fits { fits_at self.old update (choice_of choice) ≡ true }
        ensures made { OnOk result (HasMade self.old (Answers update (choice_of choice)) self.new) }
        ensures number { IfOk result (λ n. n ≡ length self.new.history) }
        ensures kept { OnErr result (self.new ≡ self.old) }
        ensures back { IfErr result (λ back. choice_of back ≡ choice_of choice) }
    {
        let place = place_of(update);
        self.least = 0;
        self.most = u32::MAX;
        self.unready = 0;
        self.known.update = 0;
        answer_at(
            alloc,
            self.settings,
            &mut self.queue,
            &mut self.history,
            place,
            choice,
        )?;
        Ok(self.history.len() as u64)
    }
}

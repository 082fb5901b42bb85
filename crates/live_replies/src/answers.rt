//! Answers and withdrawals.
ghost use Rattle.std.specs.Prelude.{IfOk};
ghost use Rattle.base_types.specs.Meanings.{choice_of};
ghost use Rattle.lang_forms.specs.Statements.{choice_of as choice_meant};
ghost use Rattle.live_replies.specs.Commands.{AskAnswer, AskWithdrawal};
ghost use Rattle.live_replies.specs.Meanings.{IsTold, live_of};
ghost use Rattle.live_replies.specs.Turns.{answer_known, answer_turn, command_turn, withdrawal_turn};
ghost use Rattle.live_replies.specs.Known.{known_choice};

use crate::conversations::Conversation;
use crate::operations::known_choice;
use crate::refusals::{Refusal, refused};
use base_types::{Choice, Memory, Name};
use core_engine::{AnswerRefusal, WithdrawRefusal};
use core_entries::Standing;
use lang_forms::RawChoice;
use std::alloc::Global;

impl<'s> Conversation<'s> {
    /// Answers the question of the update with the label.
    pub(crate) fn answer(
        &mut self,
        alloc: Global,
        label: &Name,
        written: RawChoice,
    ) -> Result<Vec<u8>, Memory>
        ensures { IfOk result (λ text. IsTold (command_turn (live_of self.old)
            (AskAnswer label.now.items (choice_meant written))) text.items (live_of self.new)) }
    {
        match self.number(label) {
            Some(update) => self.answer_written(alloc, update, written),
            None => refused(alloc, Refusal::Label),
        }
    }

    // Answers the question of the update, if the facts of the choice are known.
    fn answer_written(
        &mut self,
        alloc: Global,
        update: u32,
        written: RawChoice,
    ) -> Result<Vec<u8>, Memory>
        ensures { IfOk result (λ text. IsTold (answer_known (live_of self.old) update
            (known_choice self.old.session.now.schema (choice_meant written))) text.items
            (live_of self.new)) }
    {
        match known_choice(alloc, &self.session.schema, written)? {
            Some(choice) => self.answer_with(alloc, update, choice),
            None => refused(alloc, Refusal::Fact),
        }
    }

    // Answers the question of the update.
    fn answer_with(&mut self, alloc: Global, update: u32, choice: Choice) -> Result<Vec<u8>, Memory>
        ensures { IfOk result (λ text. IsTold
            (answer_turn (live_of self.old) update (choice_of choice)) text.items
            (live_of self.new)) }
    {
        match self.core.answer(alloc, update, choice) {
            Ok(_) => self.latest_line(alloc),
            Err((AnswerRefusal::NoSuchUpdate, _)) => refused(alloc, Refusal::Label),
            Err((AnswerRefusal::NotPaused(standing), _)) => {
                refused(alloc, Refusal::Stands(standing))
            }
            Err((AnswerRefusal::Misfit, _)) => refused(alloc, Refusal::Misfit),
            Err((AnswerRefusal::Memory, _)) => Err(Memory),
        }
    }

    /// Withdraws the update with the label.
    pub(crate) fn withdraw(&mut self, alloc: Global, label: &Name) -> Result<Vec<u8>, Memory>
        ensures { IfOk result (λ text. IsTold (command_turn (live_of self.old)
            (AskWithdrawal label.now.items)) text.items (live_of self.new)) }
    {
        match self.number(label) {
            Some(update) => self.withdraw_update(alloc, update),
            None => refused(alloc, Refusal::Label),
        }
    }

    // Withdraws the update.
    fn withdraw_update(&mut self, alloc: Global, update: u32) -> Result<Vec<u8>, Memory>
        ensures { IfOk result (λ text. IsTold (withdrawal_turn (live_of self.old) update) text.items
            (live_of self.new)) }
    {
        match self.core.withdraw(alloc, update) {
            Ok(_) => self.latest_line(alloc),
            Err(WithdrawRefusal::NoSuchUpdate) => refused(alloc, Refusal::Label),
            Err(WithdrawRefusal::Committed(_)) => refused(alloc, Refusal::Committed),
            Err(WithdrawRefusal::Withdrawn) => refused(alloc, Refusal::Stands(Standing::Withdrawn)),
            Err(WithdrawRefusal::Memory) => Err(Memory),
        }
    }
}

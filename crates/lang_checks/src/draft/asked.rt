//! The updates of a session and the answers to their questions.

ghost use Rattle.std.specs.Prelude.{◌≡◌, ◌<◌, OnErr, OnOk, false, length};
ghost use Rattle.base_types.specs.Meanings.{operation_of as operation_meant};
ghost use Rattle.def_language.specs.Names.{is_one_of};
ghost use Rattle.def_language.specs.Sessions.{labels};
ghost use Rattle.def_language.specs.Checks.{add_answer, add_update, operation_of};
ghost use Rattle.lang_forms.specs.Statements.{choice_of as choice_written, operation_of as operation_written};
ghost use Rattle.lang_checks.specs.Additions.{unanswered, with_added, with_update};
ghost use Rattle.lang_checks.specs.Answers.{Gives};

use super::Draft;
use crate::facts::{bounded_fact, choice_of, replaced_within};
use crate::limits::most_answers;
use crate::refusals::{TakeRefusal, limit};
use base_limits::MOST_UPDATES;
use base_types::{Mapping, Memory, Name, Operation, Update};
use lang_forms::{RawChoice, RawOperation};
use lang_schema::{SchemaRefusal, Which};
use std::alloc::Global;

impl Draft {
    // The operation of the next update, and the mapping that it adds, if it adds one.
    #[tactic(auto, unfolding(def_language::specs::Checks::operation_of))]
    fn performed(
        &self,
        alloc: Global,
        operation: RawOperation,
    ) -> Result<(Operation, Option<Mapping>), TakeRefusal>
        requires few { length self.now.updates < 1000 }
        ensures performed { Gives (λ p. (operation_meant p.0, with_added self.now p.1)) result
            (operation_of self.now (operation_written operation)) }
    {
        let below = self.updates.len();
        match operation {
            RawOperation::Insert(fact) => {
                let tuple = bounded_fact(alloc, &self.schema, below, fact)?;
                Ok((Operation::Insert(tuple), None))
            }
            RawOperation::Delete(fact) => {
                let tuple = bounded_fact(alloc, &self.schema, below, fact)?;
                Ok((Operation::Delete(tuple), None))
            }
            RawOperation::Replace(null, value) => {
                replaced_within(below, null, &value)?;
                Ok((Operation::Replace(null, value), None))
            }
            RawOperation::Enact(mapping) => {
                let mapping = self.checked_mapping(alloc, below + 1, mapping)?;
                let number = self.mappings.len() as u16;
                Ok((Operation::Enact(number), Some(mapping)))
            }
        }
    }

    // Keeps an update, and the mapping that it adds, if it adds one.
    fn keep(
        &mut self,
        alloc: Global,
        update: Update,
        mapping: Option<Mapping>,
    ) -> Result<(), Memory>
        requires fresh { is_one_of (labels self.old.updates) update.label.items ≡ false }
        requires room { length self.old.updates < 1000 }
        ensures kept { OnOk result (self.new ≡
            with_update (with_added self.old mapping) (unanswered update)) }
        ensures err { OnErr result (self.new ≡ self.old) }
    {
        if let Err(memory) = self.mappings.reserve(1) {
            drop((update, mapping));
            return Err(memory.into());
        }
        if let Err(memory) = self.updates.add(alloc, update) {
            drop(mapping);
            return Err(memory);
        }
        if let Some(mapping) = mapping {
            self.mappings.push(mapping)?;
        }
        Ok(())
    }

    // Adds an update. Its label must be new, there must be room for it and its curator, and its operation must pass its checks.
    #[tactic(auto, unfolding(def_language::specs::Checks::add_update))]
    pub(crate) fn add_update(
        &mut self,
        alloc: Global,
        label: Name,
        curator: Name,
        operation: RawOperation,
    ) -> Result<(), TakeRefusal>
        ensures taken { Gives (λ _. self.new) result
            (add_update self.old label.items curator.items (operation_written operation)) }
        ensures err { OnErr result (self.new ≡ self.old) }
    {
        if self.updates.has(&label) {
            drop((curator, operation));
            return Err(TakeRefusal::Schema(SchemaRefusal::DuplicateName(label)));
        }
        if MOST_UPDATES <= self.updates.len() {
            drop((label, curator, operation));
            return Err(limit(Which::Updates));
        }
        if self.updates.curators_full(&curator) {
            drop((label, curator, operation));
            return Err(limit(Which::Curators));
        }
        match self.performed(alloc, operation) {
            Ok((operation, mapping)) => {
                let update = Update {
                    label,
                    curator,
                    operation,
                };
                self.keep(alloc, update, mapping)?;
                Ok(())
            }
            Err(refusal) => {
                drop((label, curator));
                Err(refusal)
            }
        }
    }

    // Adds an answer to a question of the update with this label.
    #[tactic(auto, unfolding(def_language::specs::Checks::add_answer))]
    pub(crate) fn add_answer(
        &mut self,
        alloc: Global,
        label: Name,
        choice: RawChoice,
    ) -> Result<(), TakeRefusal>
        ensures taken { Gives (λ _. self.new) result
            (add_answer self.old label.items (choice_written choice)) }
        ensures err { OnErr result (self.new ≡ self.old) }
    {
        let Some(place) = self.updates.find(&label) else {
            return Err(TakeRefusal::UnknownLabel(label));
        };
        if most_answers(self.format) <= self.updates.answer_count() {
            return Err(limit(Which::Answers));
        }
        let choice = choice_of(alloc, &self.schema, place + 1, choice)?;
        self.updates.answer(place, choice)?;
        Ok(())
    }
}

//! Updates that are admitted while others go on.
ghost use Rattle.std.specs.Prelude.{◌≡◌, false, IfOk};
ghost use Rattle.base_types.specs.Meanings.{operation_of};
ghost use Rattle.lang_forms.specs.Statements.{operation_of as operation_meant};
ghost use Rattle.def_language.specs.Names.{is_one_of};
ghost use Rattle.live_replies.specs.Commands.{AskUpdate};
ghost use Rattle.live_replies.specs.Known.{known_operation};
ghost use Rattle.live_replies.specs.Meanings.{IsTold, live_of};
ghost use Rattle.live_replies.specs.Turns.{command_turn, update_known, update_turn};

use crate::conversations::Conversation;
use crate::operations::known_operation;
use crate::refusals::{Refusal, refused};
use base_types::{Memory, Name, TryCopy, Update};
use core_engine::AdmitRefusal;
use lang_forms::RawOperation;
use std::alloc::Global;

impl<'s> Conversation<'s> {
    /// Admits an update, if its label is new, its relation is known, there is room, and it names only nulls of lower updates.
    pub(crate) fn update(
        &mut self,
        alloc: Global,
        label: Name,
        curator: Name,
        written: RawOperation,
    ) -> Result<Vec<u8>, Memory>
        ensures { IfOk result (λ text. IsTold (command_turn (live_of self.old)
            (AskUpdate label.items curator.items (operation_meant written))) text.items
            (live_of self.new)) }
    {
        if self.labels.has(&label) {
            return refused(alloc, Refusal::Label);
        }
        self.update_new(alloc, label, curator, written)
    }

    // Admits an update whose label is new, if its relation is known, there is room, and it names only nulls of lower updates.
    fn update_new(
        &mut self,
        alloc: Global,
        label: Name,
        curator: Name,
        written: RawOperation,
    ) -> Result<Vec<u8>, Memory>
        requires new { is_one_of self.old.labels.items label.items ≡ false }
        ensures { IfOk result (λ text. IsTold (update_known (live_of self.old) label.items
            (known_operation self.old.session.now.schema (operation_meant written))) text.items
            (live_of self.new)) }
    {
        match known_operation(alloc, &self.session.schema, written)? {
            Some(operation) => self.update_known(
                alloc,
                Update {
                    label,
                    curator,
                    operation,
                },
            ),
            None => refused(alloc, Refusal::Fact),
        }
    }

    // Admits an update whose label is new and whose relation is known, if there is room and it names only nulls of lower updates.
    fn update_known(&mut self, alloc: Global, update: Update) -> Result<Vec<u8>, Memory>
        requires new { is_one_of self.old.labels.items update.label.items ≡ false }
        ensures { IfOk result (λ text. IsTold (update_turn (live_of self.old) update.label.items
            (operation_of update.operation)) text.items (live_of self.new)) }
    {
        let label = update.label.copy(alloc)?;
        self.labels.reserve()?;
        match self.core.admit(alloc, update) {
            Ok(_) => {
                self.labels.note(label.into_vec())?;
                self.latest_line(alloc)
            }
            Err((AdmitRefusal::Full, _)) => refused(alloc, Refusal::Full),
            Err((AdmitRefusal::Unfit, _)) => refused(alloc, Refusal::Null),
            Err((AdmitRefusal::Memory, _)) => Err(Memory),
        }
    }
}

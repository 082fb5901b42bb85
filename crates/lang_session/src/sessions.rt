//! The types of a session.
ghost use Rattle.std.specs.Prelude.{◌≡◌, IfOk};
ghost use Rattle.def_language.specs.Sessions.{SessionUpdate as UpdateMeant};
ghost use Rattle.lang_session.specs.Meanings.{update_of};

use base_types::{ChoiceList, List, MappingList, Memory, TryCopy, TupleList, Update};
use lang_schema::Schema;
use std::alloc::Global;

/// An update with the answers that are recorded for it, in the order in which they are taken.
#[derive(Debug, Drop)]
pub struct SessionUpdate {
    pub update: Update,
    pub answers: ChoiceList,
}

/// The updates of a session by number; the first has number 1.
pub type SessionUpdates = List<SessionUpdate>;

/// A session: the number of its format, its relations by number, its mappings by number (those that updates add come last), its
/// base tuples in order, each once, and its updates.
#[derive(Drop)]
pub struct Session {
    pub format: u8,
    pub schema: Schema,
    pub mappings: MappingList,
    pub base: TupleList,
    pub updates: SessionUpdates,
}

impl TryCopy for SessionUpdate {
    ghost Meaning = { UpdateMeant };

    ghost meaning = { update_of };

    fn copy(&self, alloc: Global) -> Result<SessionUpdate, Memory>
        ensures same { IfOk result (λ copy. update_of copy ≡ update_of self.now) }
    {
        Ok(SessionUpdate {
            update: self.update.copy(alloc)?,
            answers: self.answers.copy(alloc)?,
        })
    }
}

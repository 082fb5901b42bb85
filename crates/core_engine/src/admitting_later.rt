//! Updates that are admitted while others go on.
ghost use Rattle.std.specs.Prelude.{◌≡◌, ◌<◌, suc, true, length, IfOk, IfErr, OnOk, OnErr};
ghost use Rattle.base_types.specs.Meanings.{operation_of};
ghost use Rattle.core_engine.specs.LiveCalls.{AnswersAdmission, HasAdmitted, admits_at};
ghost use Rattle.core_engine.specs.States.{updates_at};

use crate::admissions::admit_at;
use crate::cores::Core;
use crate::refusals::AdmitRefusal;
use base_limits::MOST_UPDATES;
use base_types::Update;
use lang_session::admits;
use std::alloc::Global;

impl<'s> Core<'s> {
    /// Whether the update may be admitted next: it fits the relations of the session, its words are at most 256 bytes of UTF-8,
    /// its nulls come from updates that are there, and it puts no mapping in force.
    pub fn admits(&self, update: &Update) -> bool
        ensures admits { result ≡ admits_at self.now (operation_of update.now.operation) }
    {
        admits(self.schema, self.count(), &update.operation)
    }

    /// Admits one more update, after the others and with no recorded answers, and returns its number. On an error the update is
    /// handed back, and the core is unchanged.
    pub fn admit(&mut self, alloc: Global, update: Update) -> Result<u32, (AdmitRefusal, Update)>
        ensures made { OnOk result (HasAdmitted self.old (operation_of update.operation) self.new) }
        ensures kept { OnErr result (self.new ≡ self.old) }
        ensures answer { AnswersAdmission (length (updates_at self.old))
            (admits_at self.old (operation_of update.operation)) result }
        ensures back { IfErr result (λ refused. refused.1 ≡ update) }
    {
        if self.count() >= MOST_UPDATES {
            return Err((AdmitRefusal::Full, update));
        }
        if !self.admits(&update) {
            return Err((AdmitRefusal::Unfit, update));
        }
        match self.make_admission(alloc, update) {
            Ok(number) => Ok(number),
            Err(update) => Err((AdmitRefusal::Memory, update)),
        }
    }

    // Admits one more update, which fits; there are fewer than the most that there may be. On an error the update is handed back.
    fn make_admission(&mut self, alloc: Global, update: Update) -> Result<u32, Update>
        requires few { length (updates_at self.old) < 1000 }
        requires fits { admits_at self.old (operation_of update.operation) ≡ true }
        ensures made { OnOk result (HasAdmitted self.old (operation_of update.operation) self.new) }
        ensures number { IfOk result (λ n. n ≡ suc (length (updates_at self.old))) }
        ensures kept { OnErr result (self.new ≡ self.old) }
        ensures back { IfErr result (λ back. back ≡ update) }
    {
        self.least = 0;
        self.most = u32::MAX;
        self.unready = 0;
        self.known.update = 0;
        let number = admit_at(
            alloc,
            &mut self.queue,
            &mut self.history,
            &mut self.later,
            update,
        )?;
        Ok(number)
    }
}

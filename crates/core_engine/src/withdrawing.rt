//! Withdrawals of updates by people.
ghost use Rattle.std.specs.Prelude.{◌≡◌, length, true, IfOk, OnOk, OnErr};
ghost use Rattle.core_entries.specs.Meanings.{standing_of};
ghost use Rattle.def_machine.specs.Effects.{Withdraws};
ghost use Rattle.core_engine.specs.Events.{HasMade};
ghost use Rattle.core_engine.specs.LiveCalls.{AnswersWithdrawal, is_live_in, is_withdrawn as is_withdrawn_def};
ghost use Rattle.core_engine.specs.States.{committed_at, standing_at};

use crate::cores::Core;
use crate::refusals::WithdrawRefusal;
use crate::standings::place_of;
use crate::withdrawals::withdraw_at;
use base_types::Memory;
use core_entries::Standing;
use std::alloc::Global;

impl<'s> Core<'s> {
    /// Withdraws the update, and returns the number of the entry. The update loses its writes, and the updates above that
    /// depend on them restart. On an error the core is unchanged.
    pub fn withdraw(&mut self, alloc: Global, update: u32) -> Result<u64, WithdrawRefusal>
        ensures made { OnOk result (HasMade self.old (Withdraws update) self.new) }
        ensures number { IfOk result (λ n. n ≡ length self.new.history) }
        ensures kept { OnErr result (self.new ≡ self.old) }
        ensures answer { AnswersWithdrawal (standing_at self.old update) (committed_at self.old)
            update result }
    {
        let committed = self.committed();
        match self.standing(update) {
            None => Err(WithdrawRefusal::NoSuchUpdate),
            Some(standing) => self.withdraw_standing(alloc, update, standing, committed),
        }
    }

    // Withdraws the update, which has this standing; `committed` updates are committed.
    fn withdraw_standing(
        &mut self,
        alloc: Global,
        update: u32,
        standing: Standing,
        committed: u32,
    ) -> Result<u64, WithdrawRefusal>
        requires stands { standing_at self.old update ≡ Some (standing_of standing) }
        requires committed { committed ≡ committed_at self.old }
        ensures made { OnOk result (HasMade self.old (Withdraws update) self.new) }
        ensures number { IfOk result (λ n. n ≡ length self.new.history) }
        ensures kept { OnErr result (self.new ≡ self.old) }
        ensures answer { AnswersWithdrawal (standing_at self.old update) (committed_at self.old)
            update result }
    {
        if update <= committed {
            return Err(WithdrawRefusal::Committed(committed));
        }
        if is_withdrawn(standing) {
            return Err(WithdrawRefusal::Withdrawn);
        }
        match self.make_withdrawal(alloc, update) {
            Ok(number) => Ok(number),
            Err(_) => Err(WithdrawRefusal::Memory),
        }
    }

    // Withdraws the update, which is neither committed nor withdrawn.
    fn make_withdrawal(&mut self, alloc: Global, update: u32) -> Result<u64, Memory>
        requires live { is_live_in (standing_at self.old update) (committed_at self.old) update ≡
            true }
        ensures made { OnOk result (HasMade self.old (Withdraws update) self.new) }
        ensures number { IfOk result (λ n. n ≡ length self.new.history) }
        ensures kept { OnErr result (self.new ≡ self.old) }
    {
        let place = place_of(update);
        self.least = 0;
        self.most = u32::MAX;
        self.unready = 0;
        self.known.update = 0;
        withdraw_at(
            alloc,
            self.mappings.all(),
            self.settings,
            &mut self.versions,
            &mut self.queue,
            &mut self.history,
            place,
        )?;
        Ok(self.history.len() as u64)
    }
}

// Whether the standing is that of a withdrawn update.
fn is_withdrawn(standing: Standing) -> bool
    ensures { result ≡ is_withdrawn_def (standing_of standing) }
{
    matches!(standing, Standing::Withdrawn)
}

//! The delivery of a recorded answer to an update of a core.
ghost use Rattle.std.specs.Prelude.{◌≡◌, length, true, Some, IfOk, OnOk, OnErr};
ghost use Rattle.def_machine.specs.Effects.{Delivers};
ghost use Rattle.def_machine.specs.Standings.{Paused, Missing};
ghost use Rattle.core_engine.specs.States.{standing_at, has_waiting as has_waiting_def};
ghost use Rattle.core_engine.specs.Events.{HasMade, AnswersDelivery};

use crate::cores::Core;
use crate::deliveries::deliver_at;
use crate::putting::least_below;
use crate::refusals::DeliverRefusal;
use crate::standings::place_of;
use crate::stepping::{lesser, raised};
use base_types::Memory;
use core_entries::Standing;

impl<'s> Core<'s> {
    /// Delivers the first of the answers that wait for the update, and returns the number of the entry. On an error the core is
    /// unchanged.
    pub fn deliver(&mut self, update: u32) -> Result<u64, DeliverRefusal>
        ensures made { OnOk result (HasMade self.old (Delivers update) self.new) }
        ensures number { IfOk result (λ n. n ≡ length self.new.history) }
        ensures kept { OnErr result (self.new ≡ self.old) }
        ensures answer { AnswersDelivery (standing_at self.old update)
            (has_waiting_def self.old update) result }
    {
        match self.standing(update) {
            None => Err(DeliverRefusal::NoSuchUpdate),
            Some(Standing::Pending) => self.deliver_pending(update),
            Some(standing) => Err(DeliverRefusal::NotPending(standing)),
        }
    }

    /// Delivers the first of the answers that wait for the update, which is pending. It gives the number of the entry. If it is
    /// refused, the core is unchanged.
    pub fn make_delivery(&mut self, update: u32) -> Result<u64, Memory>
        requires pending { standing_at self.old update ≡ Some (Paused Missing) }
        requires waits { has_waiting_def self.old update ≡ true }
        ensures made { OnOk result (HasMade self.old (Delivers update) self.new) }
        ensures number { IfOk result (λ n. n ≡ length self.new.history) }
        ensures kept { OnErr result (self.new ≡ self.old) }
    {
        let place = place_of(update);
        let least = least_below(self.least, place);
        let most = raised(self.most, update);
        let unready = lesser(self.unready, place);
        self.least = 0;
        self.most = u32::MAX;
        self.unready = 0;
        self.known.update = 0;
        deliver_at(
            self.settings,
            least,
            &mut self.queue,
            &mut self.history,
            place,
        )?;
        self.least = least;
        self.most = most;
        self.unready = unready;
        Ok(self.history.len() as u64)
    }

    // Delivers the first of the answers that wait for the update, which is pending, if there is one.
    fn deliver_pending(&mut self, update: u32) -> Result<u64, DeliverRefusal>
        requires pending { standing_at self.old update ≡ Some (Paused Missing) }
        ensures made { OnOk result (HasMade self.old (Delivers update) self.new) }
        ensures number { IfOk result (λ n. n ≡ length self.new.history) }
        ensures kept { OnErr result (self.new ≡ self.old) }
        ensures answer { AnswersDelivery (standing_at self.old update)
            (has_waiting_def self.old update) result }
    {
        if !self.has_waiting(update) {
            return Err(DeliverRefusal::NoAnswer);
        }
        match self.make_delivery(update) {
            Ok(number) => Ok(number),
            Err(_) => Err(DeliverRefusal::Memory),
        }
    }
}

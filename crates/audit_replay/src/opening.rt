//! The beginning of a replay, and its admissions, deliveries and answers.
ghost use Rattle.std.specs.Prelude.{◌≡◌, ◌≤◌, ◌<◌, length, slice_get, suc, IfOk, OnErr};
ghost use Rattle.std.specs.Option.{option_copied};
ghost use Rattle.base_types.specs.Meanings.{choice_of};
ghost use Rattle.def_language.specs.Validity.{IsSession};
ghost use Rattle.lang_session.specs.Meanings.{session_of};
ghost use Rattle.audit_updates.specs.Settings.{settings_of};
ghost use Rattle.audit_replay.specs.declared.events.Event.TheVariants as events;
ghost use Rattle.audit_replay.specs.Replays.{HasMade, HasMadeAt, IsBegun, IsLeftOf, IsReplay};
ghost use Rattle.audit_replay.specs.Steps.{IsDeliverableOf, TakesOf};

use crate::answering::{answer_to, deliver_to};
use crate::levels::Levels;
use crate::replays::Replay;
use audit_updates::{AuditedUpdate, Settings, committed};
use base_limits::Budget;
use base_types::{Choice, Memory};
use core_entries::Entry;
use lang_session::{Session, SessionUpdate};
use run_serial::{base_of, mappings_of};
use std::alloc::Global;

impl<'s> Replay<'s> {
    /// A replay of the session in which nothing has happened yet.
    pub fn begun(
        alloc: Global,
        session: &'s Session,
        settings: Settings,
        budget: Budget,
    ) -> Result<Replay<'s>, Memory>
        requires valid { IsSession (session_of session.now) }
        requires retries { settings.retries ≤ 4 }
        ensures begun { IfOk result
            (IsBegun (session_of session.now) budget (settings_of settings)) }
    {
        budget.is_within();
        let mappings = mappings_of(session);
        let handed = session.updates.as_slice();
        let base = base_of(alloc, session)?;
        let levels = Levels::new(alloc, base);
        let updates = Vec::new(alloc);
        Ok(Replay {
            mappings,
            budget,
            settings,
            handed,
            updates,
            levels,
        })
    }

    // Admits the next update, if one more was handed in.
    pub(crate) fn admit(&mut self, alloc: Global) -> Result<Option<Entry>, Memory>
        requires replay { IsReplay self.old }
        ensures made { IfOk result (HasMade events.Admits self.old self.new) }
        ensures err { OnErr result (IsLeftOf self.old self.new) }
    {
        let place = self.updates.len();
        let Some(next) = handed_at(self.handed, place) else {
            return Ok(None);
        };
        let update = number_at(place);
        let audited = AuditedUpdate::admit(alloc, &next.update, update, &next.answers)?;
        self.updates.push(audited)?;
        Ok(Some(Entry::Admitted { update }))
    }

    // Delivers the first recorded answer to the update, if it is pending and has one.
    pub(crate) fn deliver(&mut self, update: u32) -> Result<Option<Entry>, Memory>
        requires replay { IsReplay self.old }
        ensures made { IfOk result (HasMade (events.Delivers update) self.old self.new) }
        ensures err { OnErr result (IsLeftOf self.old self.new) }
    {
        let Some(place) = self.place_of(update) else {
            return Ok(None);
        };
        let updates = self.updates.as_slice();
        let before = committed(updates);
        if !updates[place].is_deliverable(self.settings, before, update) {
            return Ok(None);
        }
        let entry = self.deliver_at(place)?;
        Ok(Some(entry))
    }

    // Delivers the first recorded answer to the update at the place, which is pending and has one.
    fn deliver_at(&mut self, place: usize) -> Result<Entry, Memory>
        requires replay { IsReplay self.old }
        requires within { place < length self.old.updates.items }
        requires deliverable { IsDeliverableOf (settings_of self.old.settings) place
            self.old.updates.items }
        ensures made { IfOk result (HasMadeAt events.Delivers place self.old self.new) }
        ensures err { OnErr result (IsLeftOf self.old self.new) }
    {
        let entry = deliver_to(self.updates.as_mut_slice(), self.settings, place)?;
        Ok(entry)
    }

    // Answers the question of the update, if it is paused and the choice fits.
    pub(crate) fn answer(
        &mut self,
        alloc: Global,
        update: u32,
        choice: Choice,
    ) -> Result<Option<Entry>, Memory>
        requires replay { IsReplay self.old }
        ensures made { IfOk result (HasMade (events.Answers update choice) self.old self.new) }
        ensures err { OnErr result (IsLeftOf self.old self.new) }
    {
        let Some(place) = self.place_of(update) else {
            return Ok(None);
        };
        let updates = self.updates.as_slice();
        let before = committed(updates);
        if !updates[place].takes(self.settings, before, update, &choice) {
            return Ok(None);
        }
        let entry = self.answer_at(alloc, place, choice)?;
        Ok(Some(entry))
    }

    // Answers the question of the update at the place, which is paused and takes the choice.
    fn answer_at(&mut self, alloc: Global, place: usize, choice: Choice) -> Result<Entry, Memory>
        requires replay { IsReplay self.old }
        requires within { place < length self.old.updates.items }
        requires taken { TakesOf (settings_of self.old.settings) (choice_of choice) place
            self.old.updates.items }
        ensures made { IfOk result (HasMadeAt (λ u. events.Answers u choice) place self.old
            self.new) }
        ensures err { OnErr result (IsLeftOf self.old self.new) }
    {
        let updates = self.updates.as_mut_slice();
        let entry = answer_to(alloc, updates, self.settings, place, choice)?;
        Ok(entry)
    }
}

// The number of the update at the place.
fn number_at(place: usize) -> u32
    requires few { place < 1000 }
    ensures number { result ≡ suc place }
{
    place as u32 + 1
}

// The update that was handed in at the place, if there is one.
fn handed_at(handed: &[SessionUpdate], place: usize) -> Option<&SessionUpdate>
    ensures there { option_copied result ≡ slice_get handed.now place }
{
    handed.get(place)
}

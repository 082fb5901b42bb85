//! A core, and what it is made of.
ghost use Rattle.std.specs.Prelude.{◌≡◌, ◌≤◌, length, map, true, Some, IfSome, IfOk, OnOk, OnErr};
ghost use Rattle.std.specs.Option.{option_map, option_copied};
ghost use Rattle.base_types.specs.Meanings.{rule_of};
ghost use Rattle.chase_question.specs.Inquiries.{inquiry_of, inquiry_in};
ghost use Rattle.core_laws.specs.Live.{IsSerialOver};
ghost use Rattle.def_history.specs.Cores.{IsLegalOver};
ghost use Rattle.def_machine.specs.Effects.{Steps};
ghost use Rattle.def_machine.specs.Standings.{Ready};
ghost use Rattle.core_entries.specs.Meanings.{standing_of, entry_of};
ghost use Rattle.def_chase.specs.Repository.{IsRepository};
ghost use Rattle.core_engine.specs.States.{updates_at, committed_at, standing_at, question_at, has_waiting as has_waiting_def, lowest_ready_at, lowest_ready_besides_at, lowest_deliverable_at, next_deliverable_at, is_quiet_at};
ghost use Rattle.core_engine.specs.Events.{HasMade, AnswersStep};
ghost use Rattle.core_engine.specs.Planned.{IsStepAt};

use crate::known::Known;
use crate::plans::{Plan, Snapshot, plan_at, snapshot_at};
use crate::putting::step_at;
use crate::refusals::StepRefusal;
use crate::scenes::Scene;
use crate::standings::{has_waiting, place_of, question, standing};
use crate::stepping::{lesser, raised};
use base_limits::Budget;
use base_types::{MappingList, Memory, TupleList, UpdateList};
use chase_plan::TouchedMappings;
use chase_question::Question;
use core_entries::{Entry, EntryList, Standing};
use core_queue::{
    QueuedUpdate, Settings, committed_from, is_quiet, lowest_deliverable, lowest_ready,
    lowest_ready_besides, next_deliverable, reads_at_most, unready_from,
};
use lang_schema::Schema;
use lang_session::SessionUpdates;
use set_versions::Versions;
use std::alloc::Global;
use std::marker::Model;

/// The updates of a session with all that was done to them. Contracts see what the history is over, its entries, and the relations
/// of the session.
#[derive(Drop)]
pub struct Core<'s> {
    pub(crate) schema: &'s Schema,
    pub(crate) mappings: TouchedMappings<'s>,
    pub(crate) budget: Budget,
    pub(crate) settings: Settings,
    pub(crate) base: &'s TupleList,
    pub(crate) updates: &'s SessionUpdates,
    pub(crate) later: UpdateList,
    pub(crate) versions: Versions,
    pub(crate) queue: Vec<QueuedUpdate>,
    pub(crate) history: EntryList,
    // At least this number of updates is committed; the walks over the queue begin after them.
    pub(crate) least: u32,
    // No update after this number of them has read anything; the walks upwards from an event end there.
    pub(crate) most: u32,
    // This number of the first updates is unready; the search for a ready one begins after them.
    pub(crate) unready: usize,
    // The marks of the update that made the last step, for the plan of its next one.
    pub(crate) known: Known,
}

impl<'s> Model for Core<'s> {
    ghost use Rattle.std.specs.Prelude.{map};
    ghost use Rattle.core_entries.specs.Meanings.{entry_of};
    ghost use Rattle.core_queue.specs.Settings.{settings_of};
    ghost use Rattle.core_engine.specs.States.{State};
    ghost use Rattle.core_queue.specs.Order.{CommitsAtLeast, ReadsAtMost, UnreadyUpTo};
    ghost use Rattle.core_engine.specs.Kept.{ground_by, IsKept};
    ghost use Rattle.core_engine.specs.Known.{IsKnown};
    ghost use Rattle.core_engine.specs.Lives.{CameOf};

    ghost Value = { State };

    ghost view = { λ c.
        record {
          over = ground_by c.mappings c.budget (settings_of c.settings) c.base.now
              c.updates.now c.later;
          history = map entry_of c.history.items;
          relations = c.schema.now;
        } };

    ghost invariant = { λ c.
        IsKept (ground_by c.mappings c.budget (settings_of c.settings) c.base.now c.updates.now
        c.later) c.versions c.queue.items (map entry_of c.history.items)
        × CommitsAtLeast c.queue.items c.least × ReadsAtMost c.queue.items c.most
        × UnreadyUpTo c.queue.items c.unready
        × IsKnown c.mappings c.versions c.queue.items c.known
        × CameOf c.schema.now (ground_by c.mappings c.budget (settings_of c.settings) c.base.now
        c.updates.now c.later) };
}

impl<'s> Core<'s> {
    /// How many updates there are.
    pub fn count(&self) -> u32
        ensures count { result ≡ length (updates_at self.now) }
    {
        self.queue.as_slice().len() as u32
    }

    /// How many updates are committed.
    pub fn committed(&self) -> u32
        ensures committed { result ≡ committed_at self.now }
    {
        committed_from(&self.queue, self.least)
    }

    /// What the update of this number may do next; None exactly if there is no such update.
    pub fn standing(&self, update: u32) -> Option<Standing>
        ensures standing { option_map standing_of result ≡ standing_at self.now update }
    {
        standing(&self.queue, self.settings, update)
    }

    /// The question that is put to people for the update of this number: there is one exactly if the update is paused.
    pub fn question(&self, update: u32) -> Option<&Question>
        ensures question { option_map inquiry_of (option_copied result) ≡ option_map inquiry_in
            (question_at self.now update) }
    {
        question(&self.queue, self.settings, update)
    }

    /// Whether an answer is recorded for the update of this number that was not delivered yet.
    pub fn has_waiting(&self, update: u32) -> bool
        ensures waiting { result ≡ has_waiting_def self.now update }
    {
        has_waiting(&self.queue, update)
    }

    /// The lowest update that is ready, if one is.
    pub fn lowest_ready(&self) -> Option<u32>
        ensures lowest { result ≡ lowest_ready_at self.now }
    {
        lowest_ready(&self.queue, self.settings, self.least)
    }

    /// The lowest update that is ready and is none of these, if there is one.
    pub fn lowest_ready_besides(&self, numbers: &[u32]) -> Option<u32>
        ensures lowest { result ≡ lowest_ready_besides_at self.now numbers.now }
    {
        lowest_ready_besides(
            &self.queue,
            self.settings,
            self.least,
            self.unready,
            numbers,
        )
    }

    /// The lowest update to which a recorded answer can be delivered, if there is one.
    pub fn lowest_deliverable(&self) -> Option<u32>
        ensures lowest { result ≡ lowest_deliverable_at self.now }
    {
        lowest_deliverable(&self.queue, self.settings, self.least)
    }

    /// The first update that is not committed, if a recorded answer can be delivered to it.
    pub fn next_deliverable(&self) -> Option<u32>
        ensures next { result ≡ next_deliverable_at self.now }
        ensures lowest { IfSome result (λ n. lowest_deliverable_at self.now ≡ Some n) }
    {
        next_deliverable(&self.queue, self.settings, self.least)
    }

    /// Whether nothing is ready, and nothing is deliverable.
    pub fn is_quiet(&self) -> bool
        ensures quiet { result ≡ is_quiet_at self.now }
    {
        is_quiet(&self.queue, self.settings, self.least)
    }

    /// The entries of the history.
    pub fn history(&self) -> &[Entry]
        ensures history { map entry_of result.now ≡ self.now.history }
    {
        self.history.as_slice()
    }

    /// The mappings that the history is over.
    pub fn mappings(&self) -> &'s MappingList
        ensures rules { map rule_of result.now.items ≡ self.now.over.rules }
    {
        self.mappings.list()
    }

    /// The function does nothing: its contract says what is always true of a core. Its history is legal over what it is over, and
    /// what it commits is what the serial machine makes of the committed updates alone, taken whole, in number order, with the
    /// answers delivered to them.
    pub fn is_legal(&self)
        ensures legal { IsLegalOver self.now.over self.now.history }
        ensures serial { IsSerialOver self.now.over self.now.history }
        ensures sorted { IsRepository self.now.over.base }
        ensures budget { 1 ≤ self.now.over.budget }
    {
        let _ = &self.queue;
    }

    /// What is needed to plan the next step of a ready update, whatever is done meanwhile.
    pub fn snapshot(&self, alloc: Global, update: u32) -> Result<Snapshot<'s>, Memory>
        requires ready { standing_at self.now update ≡ Some Ready }
        ensures update { IfOk result (λ snapshot. snapshot.update ≡ update) }
        ensures step { IfOk result (IsStepAt self.now) }
    {
        let place = place_of(update);
        let mappings = &self.mappings;
        let versions = &self.versions;
        let snapshot = snapshot_at(alloc, mappings, self.budget, versions, &self.queue, place)?;
        Ok(snapshot)
    }

    /// The next step of a ready update, planned without a snapshot. The core keeps what the step shows of mappings, which
    /// callers do not see.
    pub fn next_plan(&mut self, alloc: Global, update: u32) -> Result<Plan, Memory>
        requires ready { standing_at self.old update ≡ Some Ready }
        ensures same { self.new ≡ self.old }
        ensures update { IfOk result (λ plan. plan.update ≡ update) }
        ensures step { IfOk result (IsStepAt self.old) }
    {
        let place = place_of(update);
        let mappings = &self.mappings;
        let versions = &self.versions;
        let queue = &mut self.queue;
        let known = &mut self.known;
        plan_at(alloc, mappings, self.budget, versions, queue, place, known)
    }

    /// Makes the step of the plan, which must be the next one of its update at the present state, and returns the number of the
    /// entry. On an error the core is unchanged.
    pub fn install(&mut self, alloc: Global, plan: Plan) -> Result<u64, Memory>
        requires ready { standing_at self.old plan.update ≡ Some Ready }
        requires step { IsStepAt self.old plan }
        ensures made { OnOk result (HasMade self.old (Steps plan.update) self.new) }
        ensures number { IfOk result (λ n. n ≡ length self.new.history) }
        ensures kept { OnErr result (self.new ≡ self.old) }
    {
        let Plan { update, step } = plan;
        let place = place_of(update);
        let least = self.least;
        let most = reads_at_most(&self.queue, self.most);
        let below = lesser(self.unready, place);
        self.least = 0;
        self.most = u32::MAX;
        self.unready = 0;
        let known = self.known.number_of(update);
        self.known.update = 0;
        let scene = Scene {
            mappings: self.mappings.all(),
            settings: self.settings,
            least,
            most,
        };
        let committed = step_at(
            alloc,
            &scene,
            &mut self.versions,
            &mut self.queue,
            &mut self.history,
            place,
            step,
        )?;
        self.least = committed;
        self.most = raised(most, update);
        self.unready = unready_from(&self.queue, below);
        self.known.update = known;
        Ok(self.history.len() as u64)
    }

    /// Makes the next step of the update, and returns the number of the entry. On an error the core is unchanged.
    pub fn step(&mut self, alloc: Global, update: u32) -> Result<u64, StepRefusal>
        ensures made { OnOk result (HasMade self.old (Steps update) self.new) }
        ensures number { IfOk result (λ n. n ≡ length self.new.history) }
        ensures kept { OnErr result (self.new ≡ self.old) }
        ensures answer { AnswersStep (standing_at self.old update) result }
    {
        match self.standing(update) {
            None => Err(StepRefusal::NoSuchUpdate),
            Some(Standing::Ready) => self.step_ready(alloc, update),
            Some(standing) => Err(StepRefusal::NotReady(standing)),
        }
    }

    // Makes the next step of the update, which is ready.
    fn step_ready(&mut self, alloc: Global, update: u32) -> Result<u64, StepRefusal>
        requires ready { standing_at self.old update ≡ Some Ready }
        ensures made { OnOk result (HasMade self.old (Steps update) self.new) }
        ensures number { IfOk result (λ n. n ≡ length self.new.history) }
        ensures kept { OnErr result (self.new ≡ self.old) }
        ensures answer { AnswersStep (standing_at self.old update) result }
    {
        match self.make_step(alloc, update) {
            Ok(number) => Ok(number),
            Err(_) => Err(StepRefusal::Memory),
        }
    }

    // Makes the next step of the update, which is ready.
    pub(crate) fn make_step(&mut self, alloc: Global, update: u32) -> Result<u64, Memory>
        requires ready { standing_at self.old update ≡ Some Ready }
        ensures made { OnOk result (HasMade self.old (Steps update) self.new) }
        ensures number { IfOk result (λ n. n ≡ length self.new.history) }
        ensures kept { OnErr result (self.new ≡ self.old) }
    {
        let plan = self.next_plan(alloc, update)?;
        let number = self.install(alloc, plan)?;
        Ok(number)
    }
}

//! Withdrawals.
ghost use Rattle.std.specs.Prelude.{◌≡◌, ◌<◌, drop, length, suc, IfOk, OnOk, OnErr};
ghost use Rattle.base_types.specs.Contents.{rules_in};
ghost use Rattle.audit_updates.specs.Updates.{AreFrom};
ghost use Rattle.audit_updates.specs.Settings.{deps_of};
ghost use Rattle.audit_updates.specs.Order.{HasCommitted};
ghost use Rattle.audit_replay.specs.Causes.{AreOfLoss};
ghost use Rattle.audit_replay.specs.Levels.{top};
ghost use Rattle.audit_replay.specs.Places.{trail_of};
ghost use Rattle.audit_replay.specs.Prepared.{IsWithdrawal};
ghost use Rattle.audit_replay.specs.declared.events.Event.TheVariants as events;
ghost use Rattle.audit_replay.specs.Restarts.{AllHaveOneMore};
ghost use Rattle.audit_replay.specs.Replays.{HasMade, HasMadeAt, IsLeftOf, IsReplay};
ghost use Rattle.audit_replay.specs.Steps.{AtPlace, IsLiveOf, IsRemoved, TellsWithdrawal};

use crate::causes::causes_of_loss;
use crate::conflicts::Scene;
use crate::levels::Levels;
use crate::places::{above, go_to};
use crate::replays::Replay;
use crate::restarts::restart_named;
use audit_updates::{AuditedUpdate, Deps, committed};
use base_types::{MappingList, Memory};
use core_entries::{CauseList, Entry};
use std::alloc::Global;

impl<'s> Replay<'s> {
    // Withdraws the update, if it is neither committed nor withdrawn.
    pub(crate) fn withdraw(&mut self, alloc: Global, update: u32) -> Result<Option<Entry>, Memory>
        requires replay { IsReplay self.old }
        ensures made { IfOk result (HasMade (events.Withdraws update) self.old self.new) }
        ensures err { OnErr result (IsLeftOf self.old self.new) }
    {
        let Some(place) = self.place_of(update) else {
            return Ok(None);
        };
        let updates = self.updates.as_slice();
        let before = committed(updates);
        if !updates[place].is_live(before, update) {
            return Ok(None);
        }
        let entry = self.withdraw_at(alloc, place, before)?;
        Ok(Some(entry))
    }

    // Withdraws the update at the place, which is live while `before` updates are committed.
    fn withdraw_at(&mut self, alloc: Global, place: usize, before: u32) -> Result<Entry, Memory>
        requires replay { IsReplay self.old }
        requires within { place < length self.old.updates.items }
        requires committed { HasCommitted self.old.updates.items before }
        requires live { AtPlace place self.old.updates.items (IsLiveOf before (suc place)) }
        ensures made { IfOk result (HasMadeAt events.Withdraws place self.old self.new) }
        ensures err { OnErr result (IsLeftOf self.old self.new) }
    {
        let mappings = self.mappings.list();
        let deps = self.settings.deps;
        let updates = self.updates.as_slice();
        go_to(alloc, &mut self.levels, updates, place)?;
        let levels = &mut self.levels;
        let causes = prepare(alloc, levels, updates, place, mappings, deps, before)?;
        let entry = remove(alloc, self.updates.as_mut_slice(), place, causes)?;
        Ok(entry)
    }
}

// The causes for which the withdrawal of the update at the place restarts other updates. The uppermost level lies below the
// update.
fn prepare(
    alloc: Global,
    levels: &mut Levels,
    updates: &[AuditedUpdate],
    place: usize,
    mappings: &MappingList,
    deps: Deps,
    before: u32,
) -> Result<CauseList, Memory>
    requires within { place < length updates.now }
    requires numbers { AreFrom 1 updates.now }
    ensures causes { IfOk result (λ causes. AtPlace place updates.now (λ r. AreOfLoss
        (rules_in mappings.now) (deps_of deps) before (suc place) (trail_of r) (top levels.old)
        (drop (suc place) updates.now) causes.items)) }
    ensures levels { OnOk result (levels.new ≡ levels.old) }
{
    let audited = &updates[place];
    let upper = above(updates, place);
    let scene = Scene {
        mappings,
        deps,
        committed: before,
    };
    let number = audited.number();
    let trail = audited.trail();
    let causes = causes_of_loss(alloc, levels, upper, scene, number, trail)?;
    Ok(causes)
}

// Withdraws the update at the place, and gives the entry.
fn remove(
    alloc: Global,
    updates: &mut [AuditedUpdate],
    place: usize,
    causes: CauseList,
) -> Result<Entry, Memory>
    requires within { place < length updates.old }
    requires numbers { AreFrom 1 updates.old }
    requires more { AllHaveOneMore updates.old }
    ensures removed { IfOk result (IsWithdrawal place causes updates.old updates.new) }
    ensures numbers { OnOk result (AreFrom 1 updates.new) }
    ensures err { OnErr result (AreFrom 1 updates.new) }
{
    make_withdrawal(alloc, updates, place, &causes)?;
    let entry = withdrawal_entry(updates, place, causes);
    Ok(entry)
}

// Withdraws the update at the place, which restarts other updates for these causes.
fn make_withdrawal(
    alloc: Global,
    updates: &mut [AuditedUpdate],
    place: usize,
    causes: &CauseList,
) -> Result<(), Memory>
    requires within { place < length updates.old }
    requires numbers { AreFrom 1 updates.old }
    requires more { AllHaveOneMore updates.old }
    ensures made { OnOk result (IsRemoved place causes.now.items updates.old updates.new) }
    ensures numbers { OnOk result (AreFrom 1 updates.new) }
    ensures err { OnErr result (AreFrom 1 updates.new) }
{
    updates[place].withdraw();
    restart_named(alloc, updates, place + 1, causes)?;
    Ok(())
}

// The entry of a withdrawal of the update at the place, with these causes.
fn withdrawal_entry(updates: &[AuditedUpdate], place: usize, causes: CauseList) -> Entry
    requires within { place < length updates.now }
    requires numbers { AreFrom 1 updates.now }
    ensures told { TellsWithdrawal place causes updates.now result }
{
    Entry::Withdrawn {
        update: updates[place].number(),
        causes,
        committed: committed(updates),
    }
}

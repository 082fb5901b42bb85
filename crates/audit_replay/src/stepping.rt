//! Steps.
ghost use Rattle.std.specs.Prelude.{◌≡◌, ◌<◌, ◌≤◌, drop, map, length, suc, IfOk, OnOk, OnErr};
ghost use Rattle.base_types.specs.Contents.{rules_in};
ghost use Rattle.base_types.specs.Meanings.{change_of};
ghost use Rattle.audit_updates.specs.Programs.{HasWritten, IsBetween, IsPlanOf};
ghost use Rattle.audit_updates.specs.Updates.{AreFrom};
ghost use Rattle.audit_updates.specs.Settings.{deps_of, settings_of};
ghost use Rattle.audit_updates.specs.Order.{HasCommitted};
ghost use Rattle.audit_replay.specs.declared.events.Event.TheVariants as events;
ghost use Rattle.audit_replay.specs.Levels.{top};
ghost use Rattle.audit_replay.specs.Places.{AreBetween};
ghost use Rattle.audit_replay.specs.Restarts.{AllHaveOneMore};
ghost use Rattle.audit_replay.specs.Replays.{HasMade, HasMadeAt, IsLeftOf, IsReplay};
ghost use Rattle.audit_replay.specs.Steps.{AreOfStep, AtPlace, IsPlanSomewhere, IsReadyOf, IsReadySomewhere, IsStepMade, TellsStep};
ghost use Rattle.audit_replay.specs.Prepared.{IsInstalled, IsPreparedFor};

use crate::causes::{causes_of_loss, causes_of_writes};
use crate::conflicts::Scene;
use crate::levels::Levels;
use crate::places::{above, go_to, standing_at};
use crate::replays::Replay;
use crate::restarts::restart_named;
use audit_updates::{AuditedUpdate, Deps, Settings, committed, has_spent, shown};
use base_types::{Memory, TryCopy, Write, WriteList};
use chase_eval::Settled;
use chase_plan::{Chase, Footing, Plan, plan_step};
use core_entries::{CauseList, Entry};
use set_facts::{IndexedFacts, Overlay};
use std::alloc::Global;

impl<'s> Replay<'s> {
    // Makes the next step of the update, if it is ready.
    pub(crate) fn step(&mut self, alloc: Global, update: u32) -> Result<Option<Entry>, Memory>
        requires replay { IsReplay self.old }
        ensures made { IfOk result (HasMade (events.Steps update) self.old self.new) }
        ensures err { OnErr result (IsLeftOf self.old self.new) }
    {
        let Some(place) = self.place_of(update) else {
            return Ok(None);
        };
        let updates = self.updates.as_slice();
        let before = committed(updates);
        if !updates[place].is_ready(self.settings, before, update) {
            return Ok(None);
        }
        let entry = self.step_at(alloc, place, before)?;
        Ok(Some(entry))
    }

    // Makes the next step of the update at the place, which is ready while `before` updates are committed.
    fn step_at(&mut self, alloc: Global, place: usize, before: u32) -> Result<Entry, Memory>
        requires replay { IsReplay self.old }
        requires within { place < length self.old.updates.items }
        requires committed { HasCommitted self.old.updates.items before }
        requires ready { AtPlace place self.old.updates.items
            (IsReadyOf (settings_of self.old.settings) before (suc place)) }
        ensures made { IfOk result (HasMadeAt events.Steps place self.old self.new) }
        ensures err { OnErr result (IsLeftOf self.old self.new) }
    {
        let settings = self.settings;
        let chase = Chase {
            mappings: &self.mappings,
            budget: self.budget,
        };
        let updates = self.updates.as_slice();
        go_to(alloc, &mut self.levels, updates, place)?;
        let levels = &mut self.levels;
        let deps = settings.deps;
        let prepared = prepare(alloc, levels, updates, place, &chase, deps, before)?;
        let entry = install(
            alloc,
            self.updates.as_mut_slice(),
            settings,
            place,
            prepared,
        )?;
        Ok(entry)
    }
}

/// A step before it is made: its plan, the attempt that makes it, the writes that it shows, and the causes of the restarts.
#[derive(Drop)]
pub(crate) struct Prepared {
    pub(crate) plan: Plan,
    pub(crate) attempt: u32,
    pub(crate) writes: WriteList,
    pub(crate) causes: CauseList,
}

// The next step of the update at the place, which is ready. The uppermost level lies below the update.
fn prepare(
    alloc: Global,
    levels: &mut Levels,
    updates: &[AuditedUpdate],
    place: usize,
    chase: &Chase<'_>,
    deps: Deps,
    before: u32,
) -> Result<Prepared, Memory>
    requires within { place < length updates.now }
    requires numbers { AreFrom 1 updates.now }
    requires ready { AtPlace place updates.now IsReadySomewhere }
    requires left { AtPlace place updates.now (λ r. r.program.attempt.steps < chase.now.budget) }
    ensures prepared { IfOk result (λ prepared. AtPlace place updates.now (λ r. IsPreparedFor
        chase.now.mappings.now chase.now.budget (deps_of deps) before r (top levels.old)
        (drop (suc place) updates.now) prepared)) }
    ensures levels { OnOk result (levels.new ≡ levels.old) }
{
    let audited = &updates[place];
    let upper = above(updates, place);
    let plan = planned(alloc, chase, levels.facts(), audited)?;
    let scene = Scene {
        mappings: chase.mappings.list(),
        deps,
        committed: before,
    };
    match told_of_step(alloc, levels, audited, upper, scene, &plan) {
        Ok((writes, causes)) => Ok(Prepared {
            plan,
            attempt: audited.program.attempt(),
            writes,
            causes,
        }),
        Err(memory) => {
            drop(plan);
            Err(memory)
        }
    }
}

// The writes that the step of the plan shows, and the causes of the restarts. The uppermost level lies below the update.
fn told_of_step(
    alloc: Global,
    levels: &mut Levels,
    audited: &AuditedUpdate,
    upper: &[AuditedUpdate],
    scene: Scene<'_>,
    plan: &Plan,
) -> Result<(WriteList, CauseList), Memory>
    requires between { IsBetween audited.now.program }
    requires planned { IsBetween plan.now.program }
    requires above { AreBetween upper.now }
    ensures writes { IfOk result (λ told. HasWritten audited.now plan.now told.0.items) }
    ensures causes { IfOk result (λ told. AreOfStep (rules_in scene.entry.mappings.now)
        (deps_of scene.entry.deps) scene.entry.committed audited.now plan.now (top levels.old)
        upper.now told.1.items) }
    ensures levels { OnOk result (levels.new ≡ levels.old) }
{
    let writes = copies(alloc, audited.written(plan))?;
    let causes = causes_of_step(alloc, levels, audited, upper, scene, plan)?;
    Ok((writes, causes))
}

// Makes the step at the place, and gives its entry.
fn install(
    alloc: Global,
    updates: &mut [AuditedUpdate],
    settings: Settings,
    place: usize,
    prepared: Prepared,
) -> Result<Entry, Memory>
    requires within { place < length updates.old }
    requires numbers { AreFrom 1 updates.old }
    requires more { AllHaveOneMore updates.old }
    requires planned { AtPlace place updates.old (IsPlanSomewhere prepared.plan) }
    ensures made { IfOk result
        (IsInstalled (settings_of settings) place prepared updates.old updates.new) }
    ensures numbers { OnOk result (AreFrom 1 updates.new) }
    ensures err { OnErr result (AreFrom 1 updates.new) }
{
    let Prepared {
        plan,
        attempt,
        writes,
        causes,
    } = prepared;
    make_step(alloc, updates, place, plan, &causes)?;
    let entry = step_entry(updates, settings, place, attempt, writes, causes);
    Ok(entry)
}

// The next step of the update, which is ready, over the facts below it.
fn planned(
    alloc: Global,
    chase: &Chase<'_>,
    facts: &IndexedFacts,
    audited: &AuditedUpdate,
) -> Result<Plan, Memory>
    requires between { IsBetween audited.now.program }
    requires ready { IsReadySomewhere audited.now }
    requires left { audited.now.program.attempt.steps < chase.now.budget }
    ensures planned { IfOk result (IsPlanOf chase.now.mappings.now chase.now.budget facts.now
        audited.now) }
{
    let mut with = Overlay::new(alloc, facts);
    planned_over(alloc, chase, facts, &mut with, audited)
}

// The next step of the update, which is ready, over the facts below it. Its own writes are made in the overlay `with` of these
// facts. After an error the overlay is of no use any more.
fn planned_over<'f>(
    alloc: Global,
    chase: &Chase<'_>,
    facts: &'f IndexedFacts,
    with: &mut Overlay<'f, IndexedFacts>,
    audited: &AuditedUpdate,
) -> Result<Plan, Memory>
    requires between { IsBetween audited.now.program }
    requires ready { IsReadySomewhere audited.now }
    requires left { audited.now.program.attempt.steps < chase.now.budget }
    requires with { with.old ≡ facts.now }
    ensures planned { IfOk result (IsPlanOf chase.now.mappings.now chase.now.budget facts.now
        audited.now) }
{
    with.write_all(alloc, audited.program.own().as_slice())?;
    let mut settled = Settled::none(alloc, chase.mappings.list().len())?;
    let answer = audited.next_answer();
    let program = &audited.program;
    let below = Overlay::new(alloc, facts);
    let branch = program.copy(alloc)?;
    let footing = Footing {
        below: &below,
        with: &*with,
    };
    plan_step(
        alloc,
        program,
        branch,
        answer,
        chase,
        &footing,
        &mut settled,
    )
}

// The causes for which the step of the plan restarts other updates. The uppermost level lies below the update.
fn causes_of_step(
    alloc: Global,
    levels: &mut Levels,
    audited: &AuditedUpdate,
    upper: &[AuditedUpdate],
    scene: Scene<'_>,
    plan: &Plan,
) -> Result<CauseList, Memory>
    requires between { IsBetween audited.now.program }
    requires planned { IsBetween plan.now.program }
    requires above { AreBetween upper.now }
    ensures causes { IfOk result (λ causes. AreOfStep (rules_in scene.entry.mappings.now)
        (deps_of scene.entry.deps) scene.entry.committed audited.now plan.now (top levels.old)
        upper.now causes.items) }
    ensures levels { OnOk result (levels.new ≡ levels.old) }
{
    let number = audited.number();
    if has_spent(&plan.program) {
        let trail = audited.trail();
        let causes = causes_of_loss(alloc, levels, upper, scene, number, trail)?;
        return Ok(causes);
    }
    let trail = shown(&plan.program);
    let writes = audited.written(plan);
    let causes = causes_of_writes(alloc, levels, upper, scene, number, trail, writes)?;
    Ok(causes)
}

// Makes the step of the plan at the place, which restarts other updates for these causes.
fn make_step(
    alloc: Global,
    updates: &mut [AuditedUpdate],
    place: usize,
    plan: Plan,
    causes: &CauseList,
) -> Result<(), Memory>
    requires within { place < length updates.old }
    requires numbers { AreFrom 1 updates.old }
    requires more { AllHaveOneMore updates.old }
    requires planned { AtPlace place updates.old (IsPlanSomewhere plan) }
    ensures made { OnOk result (IsStepMade place plan causes.now.items updates.old updates.new) }
    ensures numbers { OnOk result (AreFrom 1 updates.new) }
    ensures err { OnErr result (AreFrom 1 updates.new) }
{
    updates[place].step(plan)?;
    restart_named(alloc, updates, place + 1, causes)?;
    Ok(())
}

// The entry of a step of the update at the place, with this attempt, these writes and these causes.
fn step_entry(
    updates: &[AuditedUpdate],
    settings: Settings,
    place: usize,
    attempt: u32,
    writes: WriteList,
    causes: CauseList,
) -> Entry
    requires within { place < length updates.now }
    requires numbers { AreFrom 1 updates.now }
    ensures told { TellsStep (settings_of settings) place attempt writes causes updates.now result }
{
    Entry::Stepped {
        update: updates[place].number(),
        attempt,
        standing: standing_at(updates, settings, place),
        writes,
        causes,
        committed: committed(updates),
    }
}

// Copies of the writes.
fn copies(alloc: Global, writes: &[Write]) -> Result<WriteList, Memory>
    ensures same { IfOk result (λ copies. map change_of copies.items ≡ map change_of writes.now) }
{
    let mut copies = WriteList::new(alloc);
    for write in writes {
        copies.push(write.copy(alloc)?)?;
    }
    Ok(copies)
}

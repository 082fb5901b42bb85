//! The next step of an update, planned while the core goes on.
ghost use Rattle.std.specs.Option.{option_map, option_copied};
ghost use Rattle.std.specs.Prelude.{◌≡◌, ◌<◌, length, map, IfOk, OnOk, OnErr};
ghost use Rattle.base_types.specs.Meanings.{choice_of};
ghost use Rattle.base_limits.specs.Within.{AreWithin};
ghost use Rattle.chase_query.specs.Meanings.{reads_in};
ghost use Rattle.core_queue.specs.Queues.{AreFrom};
ghost use Rattle.core_queue.specs.Programs.{IsBetween, HasNext};
ghost use Rattle.core_queue.specs.Wants.{WantsNext};
ghost use Rattle.set_versions.specs.Standing.{seen};
ghost use Rattle.core_engine.specs.Known.{AreMarksOver, AreMarksOf, IsKnown};
ghost use Rattle.core_engine.specs.Taken.{AtPlace, IsHeldBy, IsReadySomewhere, IsSnapshotOf};

use crate::known::Known;
use base_limits::{Budget, Mappings};
use base_types::{Choice, Memory, TryCopy};
use chase_eval::Settled;
use chase_plan::{Chase, Footing, Plan as Planned, TouchedMappings, plan_step, settled_by};
use chase_query::Logged;
use chase_update::Attempt;
use core_queue::QueuedUpdate;
use set_versions::Versions;
use std::alloc::Global;
use std::marker::Model;

/// The next step of an update: the attempt after it, and its reads.
#[derive(Drop)]
pub struct Plan {
    pub(crate) update: u32,
    pub(crate) step: Planned,
}

impl Model for Plan {
    ghost use Rattle.chase_query.specs.Meanings.{reads_in};
    ghost use Rattle.core_engine.specs.Planned.{PlanMeant};

    ghost Value = { PlanMeant };

    ghost view = { λ p. record {
      update = p.update;
      program = p.step.program;
      reads = reads_in p.step.reads.items;
    } };
}

impl Plan {
    /// The update's number.
    pub fn update(&self) -> u32
        ensures update { result ≡ self.now.update }
    {
        self.update
    }

    /// The number of the attempt that makes the step.
    pub fn attempt(&self) -> u32
        ensures attempt { result ≡ self.now.program.attempt.attempt }
    {
        self.step.program.attempt()
    }

    /// The reads of the step, in order, as the entries of a log.
    pub fn reads(&self) -> &[Logged]
        ensures reads { reads_in result.now ≡ self.now.reads }
    {
        self.step.reads.as_slice()
    }
}

/// What is needed to plan the next step of an update: what lies below it, its program and its next answer. Contracts see the
/// step that it plans.
#[derive(Drop)]
pub struct Snapshot<'s> {
    pub(crate) mappings: Mappings<'s>,
    pub(crate) budget: Budget,
    pub(crate) versions: Versions,
    pub(crate) update: u32,
    pub(crate) program: Attempt,
    pub(crate) answer: Option<Choice>,
    pub(crate) settled: Settled,
}

impl<'s> Model for Snapshot<'s> {
    ghost use Rattle.core_engine.specs.Planned.{PlanMeant};
    ghost use Rattle.core_engine.specs.Snapshots.{planned_by, CanStep};

    ghost Value = { PlanMeant };

    ghost view = { planned_by };

    ghost invariant = { CanStep };
}

impl<'s> Snapshot<'s> {
    /// The plan of the step.
    pub fn plan(&self, alloc: Global) -> Result<Plan, Memory>
        ensures same { IfOk result (λ plan. plan ≡ self.now) }
    {
        let below = self.versions.below(self.update);
        let with = self.versions.below(self.update + 1);
        let footing = Footing {
            below: &below,
            with: &with,
        };
        let chase = Chase {
            mappings: &self.mappings,
            budget: self.budget,
        };
        let answer = lent(&self.answer);
        let mut settled = self.settled.copy(alloc)?;
        let branch = self.program.copy(alloc)?;
        let step = plan_step(
            alloc,
            &self.program,
            branch,
            answer,
            &chase,
            &footing,
            &mut settled,
        )?;
        Ok(Plan {
            update: self.update,
            step,
        })
    }

    /// The update's number.
    pub fn update(&self) -> u32
        ensures update { result ≡ self.now.update }
    {
        self.update
    }
}

/// The plan of the next step of the update at the place, which is ready. Marks of the update in `known` are used, and its new
/// marks are kept there. The step is planned on a branch of the attempt, which gets what the attempt holds to make more writes.
/// On an error the marks are of no update, or unchanged. The updates stay as they are.
pub(crate) fn plan_at(
    alloc: Global,
    mappings: &TouchedMappings<'_>,
    budget: Budget,
    versions: &Versions,
    queue: &mut [QueuedUpdate],
    place: usize,
    known: &mut Known,
) -> Result<Plan, Memory>
    requires place { place < length queue.old }
    requires numbers { AreFrom 1 queue.old }
    requires ready { AtPlace place queue.old IsReadySomewhere }
    requires left { AtPlace place queue.old (λ r. r.program.attempt.steps < budget) }
    requires held { AtPlace place queue.old (IsHeldBy mappings.now versions.now) }
    requires known { IsKnown mappings.now versions.now queue.old known.old }
    ensures planned { IfOk result (λ plan. AtPlace place queue.old (λ r. IsSnapshotOf
        mappings.now budget versions.now r plan)) }
    ensures known { IsKnown mappings.now versions.now queue.old known.new }
    ensures same { queue.new ≡ queue.old }
    ensures long { length queue.new ≡ length queue.old }
{
    let branch = queue[place].program.branch(alloc)?;
    let item = &queue[place];
    plan_of(alloc, mappings, budget, versions, item, branch, known)
}

// The plan of the next step of the queued update, which is ready, on a branch of its attempt. Marks of the update in `known` are
// used, and its new marks are kept there.
fn plan_of(
    alloc: Global,
    mappings: &TouchedMappings<'_>,
    budget: Budget,
    versions: &Versions,
    item: &QueuedUpdate,
    branch: Attempt,
    known: &mut Known,
) -> Result<Plan, Memory>
    requires branch { branch ≡ item.now.program }
    requires between { IsBetween item.now.program }
    requires ready { IsReadySomewhere item.now }
    requires left { item.now.program.attempt.steps < budget }
    requires held { IsHeldBy mappings.now versions.now item.now }
    requires known { known.old.update ≡ item.now.program.attempt.number →
        AreMarksOver mappings.now (seen item.now.program.attempt.number versions.now) item.now
        known.old }
    ensures planned { IfOk result (IsSnapshotOf mappings.now budget versions.now item.now) }
    ensures known { OnOk result (AreMarksOf mappings.now versions.now item.now known.new) }
    ensures none { OnErr result (known.new.update ≡ 0) }
{
    let update = item.number();
    let program = &item.program;
    let mut settled = known.take(alloc, mappings, item)?;
    let below = versions.below(update);
    let with = versions.below(update + 1);
    let footing = Footing {
        below: &below,
        with: &with,
    };
    let chase = Chase {
        mappings: mappings.all(),
        budget,
    };
    let answer = item.next_answer();
    let step = plan_step(
        alloc,
        program,
        branch,
        answer,
        &chase,
        &footing,
        &mut settled,
    )?;
    known.keep(update, program.own().len() as u64, settled);
    Ok(Plan { update, step })
}

/// A snapshot of the next step of the update at the place, which is ready.
pub(crate) fn snapshot_at<'s>(
    alloc: Global,
    mappings: &TouchedMappings<'s>,
    budget: Budget,
    versions: &Versions,
    queue: &[QueuedUpdate],
    place: usize,
) -> Result<Snapshot<'s>, Memory>
    requires within { AreWithin mappings.now }
    requires place { place < length queue.now }
    requires numbers { AreFrom 1 queue.now }
    requires ready { AtPlace place queue.now IsReadySomewhere }
    requires left { AtPlace place queue.now (λ r. r.program.attempt.steps < budget) }
    requires held { AtPlace place queue.now (IsHeldBy mappings.now
        versions.now) }
    ensures taken { IfOk result (λ snapshot. AtPlace place queue.now (λ r. IsSnapshotOf
        mappings.now budget versions.now r snapshot)) }
{
    let item = &queue[place];
    let snapshot = snapshot_of(alloc, mappings, budget, versions, item)?;
    Ok(snapshot)
}

// A snapshot of the next step of the queued update, which is ready.
fn snapshot_of<'s>(
    alloc: Global,
    mappings: &TouchedMappings<'s>,
    budget: Budget,
    versions: &Versions,
    item: &QueuedUpdate,
) -> Result<Snapshot<'s>, Memory>
    requires within { AreWithin mappings.now }
    requires between { IsBetween item.now.program }
    requires ready { IsReadySomewhere item.now }
    requires left { item.now.program.attempt.steps < budget }
    requires held { IsHeldBy mappings.now versions.now item.now }
    ensures taken { IfOk result (IsSnapshotOf mappings.now budget versions.now
        item.now) }
{
    let settled = settled_by(alloc, mappings, &item.program, item.log.as_slice())?;
    let answer = next_answer(alloc, item)?;
    let versions = versions.share()?;
    let program = item.program.copy(alloc)?;
    Ok(Snapshot {
        mappings: Mappings::of(mappings.list()),
        budget,
        versions,
        update: item.number(),
        program,
        answer,
        settled,
    })
}

// A copy of the next answer, if there is one.
fn next_answer(alloc: Global, item: &QueuedUpdate) -> Result<Option<Choice>, Memory>
    requires between { IsBetween item.now.program }
    ensures next { IfOk result (λ answer. HasNext item.now (option_map choice_of answer)) }
    ensures wanted { IfOk result (λ answer. WantsNext item.now (option_map choice_of answer)) }
{
    let found = item.next_answer();
    let answer = copied(alloc, found)?;
    Ok(answer)
}

// A copy of the answer, if there is one.
fn copied(alloc: Global, answer: Option<&Choice>) -> Result<Option<Choice>, Memory>
    ensures same { IfOk result (λ copy. option_map choice_of copy ≡ option_map choice_of
        (option_copied answer.entry)) }
{
    match answer {
        Some(choice) => Ok(Some(choice.copy(alloc)?)),
        None => Ok(None),
    }
}

// The answer, if there is one.
fn lent(answer: &Option<Choice>) -> Option<&Choice>
    ensures { option_copied result ≡ answer.now }
{
    match answer {
        Some(choice) => Some(choice),
        None => None,
    }
}

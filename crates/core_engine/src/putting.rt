//! A step that is prepared is put in place: from then on nothing can fail.
ghost use Rattle.std.specs.Prelude.{◌≡◌, ◌<◌, ◌≤◌, suc, List, drop, length, IfOk, OnOk, OnErr};
ghost use Rattle.def_chase.specs.Mappings.{Rule};
ghost use Rattle.core_queue.specs.Programs.{IsBetween};
ghost use Rattle.core_queue.specs.Queues.{AreFrom};
ghost use Rattle.core_queue.specs.Renewals.{AllHaveOneMore, AreFresh};
ghost use Rattle.core_queue.specs.Settings.{settings_of};
ghost use Rattle.core_queue.specs.Order.{CommitsAtLeast, HasCommitted, ReadsAtMost};
ghost use Rattle.set_versions.specs.Standing.{Kept};
ghost use Rattle.core_engine.specs.Known.{GrowsAt};
ghost use Rattle.core_engine.specs.Follows.{AreSame, HasRoomAt, IsPlanAt, IsPreparedAt, KeepsUnread, KeepsUnready, TellsStep, StepsTo};

use crate::scenes::Scene;
use crate::stepping::{Prepared, install, prepare_at, put_last, reserve_step};
use base_types::{Memory, WriteList};
use chase_plan::Plan;
use core_entries::{CauseList, Entry, EntryList};
use core_queue::{QueuedUpdate, Settings, committed_from};
use set_versions::Versions;
use std::alloc::Global;

/// Makes the step of the plan, which is the next one of the update at the place. Returns a lower bound for the number of updates
/// that are committed afterwards. On an error the queue and the history keep their meaning.
pub(crate) fn step_at(
    alloc: Global,
    scene: &Scene<'_>,
    versions: &mut Versions,
    queue: &mut [QueuedUpdate],
    history: &mut EntryList,
    place: usize,
    plan: Plan,
) -> Result<u32, Memory>
    requires place { place < length queue.old }
    requires numbers { AreFrom 1 queue.old }
    requires least { CommitsAtLeast queue.old scene.now.least }
    requires most { ReadsAtMost queue.old scene.now.most }
    requires few { scene.now.most ≤ length queue.old }
    requires more { AllHaveOneMore queue.old }
    requires plan { IsPlanAt place plan queue.old }
    requires after { IsBetween plan.program }
    ensures made { OnOk result (StepsTo scene.now.mappings.now
        (settings_of scene.now.settings) place plan versions.old queue.old history.old.items
        versions.new queue.new history.new.items) }
    ensures committed { IfOk result (CommitsAtLeast queue.new) }
    ensures most { OnOk result (KeepsUnread place queue.old queue.new) }
    ensures unready { OnOk result (KeepsUnready place queue.old queue.new) }
    ensures grows { OnOk result (GrowsAt place queue.old queue.new) }
    ensures versions { OnErr result (versions.new ≡ versions.old) }
    ensures queue { OnErr result (AreSame queue.old queue.new) }
    ensures history { OnErr result (history.new.items ≡ history.old.items) }
    ensures long { length queue.new ≡ length queue.old }
{
    match ready_step(alloc, scene, versions, queue, history, place, &plan) {
        Ok(prepared) => Ok(put_step(
            scene.settings,
            scene.least,
            queue,
            history,
            place,
            plan,
            prepared,
        )),
        Err(refusal) => {
            drop(plan);
            Err(refusal)
        }
    }
}

// Makes room for the step of the plan, and prepares what it leaves. The versions are put in place with it. On an error the
// versions are unchanged. The queue and the history keep their meaning.
fn ready_step(
    alloc: Global,
    scene: &Scene<'_>,
    versions: &mut Versions,
    queue: &mut [QueuedUpdate],
    history: &mut EntryList,
    place: usize,
    plan: &Plan,
) -> Result<Prepared, Memory>
    requires place { place < length queue.old }
    requires numbers { AreFrom 1 queue.old }
    requires least { CommitsAtLeast queue.old scene.now.least }
    requires most { ReadsAtMost queue.old scene.now.most }
    requires few { scene.now.most ≤ length queue.old }
    requires more { AllHaveOneMore queue.old }
    requires after { IsBetween plan.now.program }
    ensures room { OnOk result (HasRoomAt place plan.now queue.new) }
    ensures spare { OnOk result (1 ≤ history.new.spare) }
    ensures prepared { IfOk result (IsPreparedAt scene.now.mappings.now
        (settings_of scene.now.settings) place plan.now versions.old queue.new versions.new) }
    ensures fresh { IfOk result (λ p. AreFresh (drop (suc place) queue.new) p.left.fresh.items) }
    ensures versions { OnErr result (versions.new ≡ versions.old) }
    ensures same { AreSame queue.old queue.new }
    ensures long { length queue.new ≡ length queue.old }
    ensures history { history.new.items ≡ history.old.items }
{
    reserve_step(queue, history, place, plan)?;
    prepare_at(alloc, scene, versions, queue, place, plan)
}

// Puts the step of the plan in place, which was prepared and whose versions are in place. It is the next step of the update at
// the place; at least `least` updates are committed. Returns the number of updates that are committed after it. There is room
// for it.
fn put_step(
    settings: Settings,
    least: u32,
    queue: &mut [QueuedUpdate],
    history: &mut EntryList,
    place: usize,
    plan: Plan,
    prepared: Prepared,
) -> u32
    requires place { place < length queue.old }
    requires numbers { AreFrom 1 queue.old }
    requires least { CommitsAtLeast queue.old least }
    requires room { HasRoomAt place plan queue.old }
    requires plan { IsPlanAt place plan queue.old }
    requires spare { 1 ≤ history.old.spare }
    requires fresh { AreFresh (drop (suc place) queue.old) prepared.left.fresh.items }
    ensures made { (ms : List Rule) (before after : Kept) → IsPreparedAt ms (settings_of settings)
        place plan before queue.old after prepared → StepsTo ms (settings_of settings) place plan
        before queue.old history.old.items after queue.new history.new.items }
    ensures committed { CommitsAtLeast queue.new result }
    ensures most { KeepsUnread place queue.old queue.new }
    ensures unready { KeepsUnready place queue.old queue.new }
    ensures grows { GrowsAt place queue.old queue.new }
    ensures long { length queue.new ≡ length queue.old }
{
    let attempt = queue[place].program.attempt();
    let Prepared { writes, left } = prepared;
    install(queue, place, plan, left.fresh);
    let committed = committed_from(queue, least_below(least, place));
    let entry = step_entry(
        settings,
        committed,
        queue,
        place,
        attempt,
        writes,
        left.causes,
    );
    put_last(history, entry);
    committed
}

// The entry of the step that the update at the place made, after which `committed` updates are committed.
fn step_entry(
    settings: Settings,
    committed: u32,
    queue: &[QueuedUpdate],
    place: usize,
    attempt: u32,
    writes: WriteList,
    causes: CauseList,
) -> Entry
    requires place { place < length queue.now }
    requires numbers { AreFrom 1 queue.now }
    requires committed { HasCommitted queue.now committed }
    ensures told { TellsStep (settings_of settings) place attempt writes causes queue.now result }
{
    let queued = &queue[place];
    let update = queued.number();
    let standing = queued.standing(settings, committed, update);
    Entry::Stepped {
        update,
        attempt,
        standing,
        writes,
        causes,
        committed,
    }
}

/// `least`, if that number of updates is below the place; else 0.
pub(crate) fn least_below(least: u32, place: usize) -> u32
    ensures least { result ≤ least }
    ensures below { result ≤ place }
{
    if least as usize <= place { least } else { 0 }
}

//! A step: it is prepared while nothing is changed, and then put in place, which cannot fail.
ghost use Rattle.std.specs.Prelude.{◌≡◌, ◌<◌, ◌≤◌, suc, [], ◌∷◌, ◌++◌, drop, length, map, IfOk, OnOk, OnErr};
ghost use Rattle.base_types.specs.Meanings.{change_of};
ghost use Rattle.core_queue.specs.Programs.{IsBetween};
ghost use Rattle.core_queue.specs.Queues.{AreFrom};
ghost use Rattle.core_queue.specs.Renewals.{AllHaveOneMore, AreFresh};
ghost use Rattle.core_queue.specs.Settings.{settings_of};
ghost use Rattle.core_queue.specs.Order.{CommitsAtLeast, ReadsAtMost};
ghost use Rattle.core_engine.specs.Aftermaths.{AllBetween};
ghost use Rattle.core_engine.specs.Follows.{AreSame, HasRoomAt, IsPlanAt, IsPreparedAt, IsInstalled, KeepsCommitted, KeepsUnread, KeepsUnready};
ghost use Rattle.core_engine.specs.Known.{GrowsAt};
ghost use Rattle.core_engine.specs.Steps.{HasHidden, HasTurned, ShowsStep, WereFound, IsPrepared};

use crate::aftermaths::{Aftermath, settled};
use crate::alone::{is_alone, prepare_alone};
use crate::scenes::{Scene, Spot};
use base_types::{Memory, TryCopy, Write, WriteList};
use chase_plan::Plan;
use chase_update::{Attempt, Outcome};
use core_cascade::Cascade;
use core_conflict::Sense;
use core_entries::{Cause, Entry, EntryList};
use core_queue::{QueuedUpdate, committed_from, has_spent, outcome, restart_marked};
use set_versions::Versions;
use std::alloc::Global;

/// What a step leaves apart from the versions: the writes that it shows, and what becomes of the updates above.
#[derive(Drop)]
pub(crate) struct Prepared {
    pub(crate) writes: WriteList,
    pub(crate) left: Aftermath,
}

/// What the step of the plan leaves. The plan is of the update at the spot, and `committed` updates are committed. The versions
/// after the step are made aside, and put in place last. On an error the versions are unchanged.
pub(crate) fn prepare(
    alloc: Global,
    scene: &Scene<'_>,
    committed: u32,
    versions: &mut Versions,
    spot: &Spot<'_>,
    plan: &Plan,
) -> Result<Prepared, Memory>
    requires between { IsBetween spot.now.item.now.program }
    requires after { IsBetween plan.now.program }
    requires numbers { AreFrom (suc spot.now.item.now.program.attempt.number) spot.now.upper.now }
    requires read { ReadsAtMost spot.now.upper.now spot.now.readers }
    requires within { spot.now.readers ≤ length spot.now.upper.now }
    requires more { AllHaveOneMore spot.now.upper.now }
    ensures prepared { IfOk result (IsPrepared scene.now.mappings.now
        (settings_of scene.now.settings) committed versions.old spot.now.item.now
        spot.now.upper.now plan.now versions.new) }
    ensures fresh { IfOk result (λ p. AreFresh spot.now.upper.now p.left.fresh.items) }
    ensures err { OnErr result (versions.new ≡ versions.old) }
{
    let mut after = versions_after(alloc, versions, spot.item, plan)?;
    let found = found(alloc, scene, committed, versions, &after, spot, plan)?;
    let writes = copied(alloc, spot.item.written(plan))?;
    let left = settled(alloc, &mut after, spot.upper, found)?;
    *versions = after;
    Ok(Prepared { writes, left })
}

// Why each of the updates above is restarted by the step, if it is. `after` are the versions after it.
fn found<'a>(
    alloc: Global,
    scene: &'a Scene<'a>,
    committed: u32,
    versions: &'a Versions,
    after: &'a Versions,
    spot: &Spot<'_>,
    plan: &Plan,
) -> Result<Vec<Option<Cause>>, Memory>
    requires between { IsBetween spot.now.item.now.program }
    requires after { IsBetween plan.now.program }
    requires numbers { AreFrom (suc spot.now.item.now.program.attempt.number) spot.now.upper.now }
    requires read { ReadsAtMost spot.now.upper.now spot.now.readers }
    requires within { spot.now.readers ≤ length spot.now.upper.now }
    ensures found { IfOk result (λ found. WereFound scene.now.mappings.now
        (settings_of scene.now.settings) committed versions.now after.now spot.now.item.now
        spot.now.upper.now plan.now found.items) }
    ensures long { IfOk result (λ found. length found.items ≤ spot.now.readers) }
{
    let item = spot.item;
    let (sense, written) = turned(item, plan);
    let mut walk = Cascade {
        mappings: scene.mappings,
        deps: scene.settings.deps,
        committed,
        update: item.number(),
        sense,
        whole: after,
    };
    if has_spent(&plan.program) {
        walk.whole = versions;
        return walk.causes_of_loss(alloc, item.trail(), spot.upper, spot.readers);
    }
    walk.causes_of_writes(alloc, written, spot.upper, spot.readers)
}

// The writes that come by the step, or the writes that go if the attempt ends by it spent or refused.
fn turned<'a>(item: &'a QueuedUpdate, plan: &'a Plan) -> (Sense, &'a [Write])
    requires between { IsBetween item.now.program }
    requires after { IsBetween plan.now.program }
    ensures turned { HasTurned item.now plan.now result.0 result.1.now }
{
    if hides(&plan.program) {
        return (Sense::Went, item.trail());
    }
    (Sense::Came, item.written(plan))
}

// The versions with the writes that the step shows, or without the update's writes if it ends by the step spent or refused.
fn versions_after(
    alloc: Global,
    versions: &Versions,
    item: &QueuedUpdate,
    plan: &Plan,
) -> Result<Versions, Memory>
    requires between { IsBetween item.now.program }
    requires after { IsBetween plan.now.program }
    ensures shows { IfOk result (ShowsStep item.now plan.now versions.now) }
{
    let mut after = versions.share()?;
    if hides(&plan.program) {
        after.retract(alloc, item.number(), item.trail())?;
        return Ok(after);
    }
    after.publish(alloc, item.number(), item.written(plan))?;
    Ok(after)
}

/// Whether the attempt ended spent or refused.
pub(crate) fn hides(program: &Attempt) -> bool
    requires between { IsBetween program.now }
    ensures hidden { HasHidden program.now result }
{
    matches!(
        outcome(program),
        Some(Outcome::Spent | Outcome::Refused { .. })
    )
}

/// Copies of the writes.
pub(crate) fn copied(alloc: Global, writes: &[Write]) -> Result<WriteList, Memory>
    ensures same { IfOk result (λ copies. map change_of copies.items ≡ map change_of writes.now) }
{
    let mut copies = WriteList::new(alloc);
    for write in writes {
        copies.push(write.copy(alloc)?)?;
    }
    Ok(copies)
}

/// What the step of the plan leaves. The plan is of the update at the place. The versions are put in place with it. On an error
/// the versions are unchanged.
pub(crate) fn prepare_at(
    alloc: Global,
    scene: &Scene<'_>,
    versions: &mut Versions,
    queue: &[QueuedUpdate],
    place: usize,
    plan: &Plan,
) -> Result<Prepared, Memory>
    requires place { place < length queue.now }
    requires numbers { AreFrom 1 queue.now }
    requires least { CommitsAtLeast queue.now scene.now.least }
    requires most { ReadsAtMost queue.now scene.now.most }
    requires few { scene.now.most ≤ length queue.now }
    requires more { AllHaveOneMore queue.now }
    requires after { IsBetween plan.now.program }
    ensures prepared { IfOk result (IsPreparedAt scene.now.mappings.now
        (settings_of scene.now.settings) place plan.now versions.old queue.now versions.new) }
    ensures fresh { IfOk result (λ p. AreFresh (drop (suc place) queue.now) p.left.fresh.items) }
    ensures err { OnErr result (versions.new ≡ versions.old) }
{
    let committed = committed_from(queue, scene.least);
    let item = &queue[place];
    let upper = above(queue, place);
    let readers = readers_above(queue, place, scene.most);
    if is_alone(readers, &plan.program) {
        return prepare_alone(alloc, versions, item, plan);
    }
    let spot = Spot {
        item,
        upper,
        readers,
    };
    prepare(alloc, scene, committed, versions, &spot, plan)
}

/// The updates above the place.
pub(crate) fn above(queue: &[QueuedUpdate], place: usize) -> &[QueuedUpdate]
    requires place { place < length queue.now }
    ensures rest { result.now ≡ drop (suc place) queue.now }
{
    &queue[place + 1..]
}

/// How many of the first updates above the place may have read something; in the whole queue only the first `most` may have.
pub(crate) fn readers_above(queue: &[QueuedUpdate], place: usize, most: u32) -> usize
    requires place { place < length queue.now }
    requires most { ReadsAtMost queue.now most }
    requires few { most ≤ length queue.now }
    ensures read { ReadsAtMost (drop (suc place) queue.now) result }
    ensures within { result ≤ length (drop (suc place) queue.now) }
{
    (most as usize).saturating_sub(place + 1)
}

/// Puts the step of the plan in place, and restarts the updates above for which there is an attempt.
pub(crate) fn install(
    queue: &mut [QueuedUpdate],
    place: usize,
    plan: Plan,
    fresh: Vec<Option<Attempt>>,
)
    requires place { place < length queue.old }
    requires numbers { AreFrom 1 queue.old }
    requires room { HasRoomAt place plan queue.old }
    requires plan { IsPlanAt place plan queue.old }
    requires fresh { AreFresh (drop (suc place) queue.old) fresh.items }
    ensures installed { IsInstalled place plan fresh.items queue.old queue.new }
    ensures least { KeepsCommitted place queue.old queue.new }
    ensures most { KeepsUnread place queue.old queue.new }
    ensures unready { KeepsUnready place queue.old queue.new }
    ensures grows { GrowsAt place queue.old queue.new }
    ensures numbers { AreFrom 1 queue.new }
    ensures long { length queue.new ≡ length queue.old }
{
    queue[place].follow(plan);
    restart_marked(queue, place + 1, fresh);
}

/// `most`, or the number of the update if that is higher: it has made a step.
pub(crate) fn raised(most: u32, update: u32) -> u32
    ensures most { most ≤ result }
    ensures update { update ≤ result }
{
    if most < update { update } else { most }
}

/// The lesser of the two.
pub(crate) fn lesser(one: usize, other: usize) -> usize
    ensures one { result ≤ one }
    ensures other { result ≤ other }
{
    if one <= other { one } else { other }
}

/// Puts the entry at the end of the history, which has room for it.
pub(crate) fn put_last(history: &mut EntryList, entry: Entry)
    requires room { 1 ≤ history.old.spare }
    ensures all { history.new.items ≡ history.old.items ++ entry ∷ [] }
{
    match history.push(entry) {
        Ok(()) => {}
        Err(_) => unreachable!(),
    }
}

/// Makes room for the step of the plan. The queue and the history keep their meaning.
pub(crate) fn reserve_step(
    queue: &mut [QueuedUpdate],
    history: &mut EntryList,
    place: usize,
    plan: &Plan,
) -> Result<(), Memory>
    requires place { place < length queue.old }
    ensures room { OnOk result (HasRoomAt place plan.now queue.new) }
    ensures spare { OnOk result (1 ≤ history.new.spare) }
    ensures same { AreSame queue.old queue.new }
    ensures long { length queue.new ≡ length queue.old }
    ensures history { history.new.items ≡ history.old.items }
{
    queue[place].reserve_reads(plan)?;
    history.reserve(1)
}

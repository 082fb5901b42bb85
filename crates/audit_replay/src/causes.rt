//! Why an event restarts other updates.
ghost use Rattle.std.specs.Prelude.{◌≡◌, ◌++◌, map, IfOk, OnOk};
ghost use Rattle.base_types.specs.Contents.{rules_in};
ghost use Rattle.base_types.specs.Meanings.{change_of};
ghost use Rattle.audit_updates.specs.Settings.{deps_of};
ghost use Rattle.audit_replay.specs.Causes.{AreDependencesOn, AreOfLoss, AreOfWrites, readers_in};
ghost use Rattle.audit_replay.specs.Levels.{top};
ghost use Rattle.audit_replay.specs.Places.{AreBetween};

use crate::cascades::dependences;
use crate::conflicts::{Scene, conflicts};
use crate::levels::Levels;
use crate::losses::Losses;
use crate::relations::relations_of;
use audit_updates::AuditedUpdate;
use base_types::{Memory, Write};
use core_entries::CauseList;
use std::alloc::Global;

/// The causes of the restarts if the update `number`, below the updates `upper`, loses its trail: each depends on an update that
/// goes. The uppermost level lies below update `number`, before the call and after it.
pub(crate) fn causes_of_loss(
    alloc: Global,
    levels: &mut Levels,
    upper: &[AuditedUpdate],
    scene: Scene<'_>,
    number: u32,
    trail: &[Write],
) -> Result<CauseList, Memory>
    requires between { AreBetween upper.now }
    ensures causes { IfOk result (λ causes. AreOfLoss (rules_in scene.entry.mappings.now)
        (deps_of scene.entry.deps) scene.entry.committed number (map change_of trail.now)
        (top levels.old) upper.now causes.items) }
    ensures levels { OnOk result (levels.new ≡ levels.old) }
{
    let none = CauseList::new(alloc);
    let mut losses = Losses::none(alloc);
    losses.lose(number, trail)?;
    let causes = dependences(alloc, levels, upper, scene, &none, losses)?;
    Ok(causes)
}

/// The causes of the restarts after the update `number`, below the updates `upper`, has just made `writes`, the last of its
/// trail. First come the conflicts, then the dependences on the updates in conflict. The uppermost level lies below update
/// `number`, before the call and after it.
pub(crate) fn causes_of_writes(
    alloc: Global,
    levels: &mut Levels,
    upper: &[AuditedUpdate],
    scene: Scene<'_>,
    number: u32,
    trail: &[Write],
    writes: &[Write],
) -> Result<CauseList, Memory>
    requires between { AreBetween upper.now }
    ensures causes { IfOk result (λ causes. AreOfWrites (rules_in scene.entry.mappings.now)
        (deps_of scene.entry.deps) scene.entry.committed number (map change_of trail.now)
        (map change_of writes.now) (top levels.old) upper.now causes.items) }
    ensures levels { OnOk result (levels.new ≡ levels.old) }
{
    if writes.is_empty() {
        return Ok(CauseList::new(alloc));
    }
    let relations = relations_of(alloc, writes)?;
    // There is at least one level.
    let _height = levels.height();
    levels.rise(alloc, trail)?;
    let mut causes = conflicts(alloc, levels, upper, scene, number, relations.as_slice())?;
    let more = dependences_on(alloc, levels, upper, scene, &causes)?;
    levels.sink()?;
    put_all(&mut causes, more)?;
    Ok(causes)
}

// The dependence of each update that depends on the updates that these causes are for.
fn dependences_on(
    alloc: Global,
    levels: &mut Levels,
    upper: &[AuditedUpdate],
    scene: Scene<'_>,
    firsts: &CauseList,
) -> Result<CauseList, Memory>
    requires between { AreBetween upper.now }
    ensures causes { IfOk result (λ causes. AreDependencesOn (rules_in scene.entry.mappings.now)
        (deps_of scene.entry.deps) scene.entry.committed (readers_in firsts.now.items)
        (top levels.old) upper.now causes.items) }
    ensures levels { OnOk result (levels.new ≡ levels.old) }
{
    if firsts.is_empty() {
        return Ok(CauseList::new(alloc));
    }
    let losses = Losses::none(alloc);
    let causes = dependences(alloc, levels, upper, scene, firsts, losses)?;
    Ok(causes)
}

// Appends the causes to the others.
fn put_all(causes: &mut CauseList, more: CauseList) -> Result<(), Memory>
    ensures all { OnOk result (causes.new.items ≡ causes.old.items ++ more.items) }
{
    for cause in more.into_vec() {
        causes.push(cause)?;
    }
    Ok(())
}

//! The updates that depend on those whose trails go.
ghost use Rattle.std.specs.Prelude.{◌≡◌, ◌||◌, IfOk, OnOk};
ghost use Rattle.std.specs.Option.{option_map};
ghost use Rattle.base_types.specs.Contents.{rules_in};
ghost use Rattle.core_entries.specs.Meanings.{cause_of};
ghost use Rattle.def_machine.specs.Cascade.{has_number};
ghost use Rattle.audit_updates.specs.Settings.{deps_of};
ghost use Rattle.audit_replay.specs.Causes.{AreMetDependences, IsJoinOf, dependence_meant, numbered_of, reader_in, readers_in};
ghost use Rattle.audit_replay.specs.Levels.{RisesFrom, top};
ghost use Rattle.audit_replay.specs.Places.{AreBetween};

use crate::conflicts::{Scene, put};
use crate::levels::Levels;
use crate::losses::{Losses, Numbered};
use audit_updates::AuditedUpdate;
use base_types::{MappingList, Memory};
use core_entries::{Cause, CauseList};
use std::alloc::Global;

/// The dependence of each update that depends on what is lost. The updates that the first causes are for go, and so does each
/// update that depends; what these lose is lost too. The uppermost level lies below the first update, without what is lost,
/// before the call and after it.
pub(crate) fn dependences<'r>(
    alloc: Global,
    levels: &mut Levels,
    upper: &'r [AuditedUpdate],
    scene: Scene<'_>,
    firsts: &CauseList,
    losses: Losses<'r>,
) -> Result<CauseList, Memory>
    requires between { AreBetween upper.now }
    ensures causes { IfOk result (λ causes. AreMetDependences (rules_in scene.entry.mappings.now)
        (deps_of scene.entry.deps) scene.entry.committed (readers_in firsts.now.items)
        (top levels.old) losses.entry upper.now causes.items) }
    ensures levels { OnOk result (levels.new ≡ levels.old) }
{
    let height = levels.height();
    let causes = dependences_above(alloc, levels, upper, scene, firsts, losses)?;
    levels.sink_to(height)?;
    Ok(causes)
}

// Does what `dependences` does, but leaves the trails of the updates that stay on top of the levels.
fn dependences_above<'r>(
    alloc: Global,
    levels: &mut Levels,
    upper: &'r [AuditedUpdate],
    scene: Scene<'_>,
    firsts: &CauseList,
    mut losses: Losses<'r>,
) -> Result<CauseList, Memory>
    requires between { AreBetween upper.now }
    ensures causes { IfOk result (λ causes. AreMetDependences (rules_in scene.entry.mappings.now)
        (deps_of scene.entry.deps) scene.entry.committed (readers_in firsts.now.items)
        (top levels.old) losses.entry upper.now causes.items) }
    ensures levels { OnOk result (RisesFrom levels.old levels.new) }
{
    let mut causes = CauseList::new(alloc);
    'updates: for audited in upper {
        let found = join_of(alloc, levels, audited, scene, firsts, &losses)?;
        let named = is_named(firsts, audited.number());
        let goes = either(named, found.is_some());
        put(&mut causes, found)?;
        losses.pass(alloc, levels, goes, audited)?;
    }
    Ok(causes)
}

// Whether one of the two holds.
fn either(one: bool, other: bool) -> bool
    ensures either { result ≡ (one || other) }
{
    one || other
}

// Why the update joins the updates that go, if it does and none of the first causes is for it.
fn join_of(
    alloc: Global,
    levels: &Levels,
    audited: &AuditedUpdate,
    scene: Scene<'_>,
    firsts: &CauseList,
    losses: &Losses<'_>,
) -> Result<Option<Cause>, Memory>
    ensures join { IfOk result (IsJoinOf (rules_in scene.entry.mappings.now)
        (deps_of scene.entry.deps) scene.entry.committed (readers_in firsts.now.items)
        (top levels.now) losses.now audited.now) }
{
    let reader = audited.number();
    if is_named(firsts, reader) {
        return Ok(None);
    }
    if !audited.is_live(scene.committed, reader) {
        return Ok(None);
    }
    let read = losses.first_dependent(alloc, levels, audited, scene.mappings, scene.deps)?;
    let cause = dependence_by(reader, read, losses, scene.mappings);
    Ok(cause)
}

// The dependence by the read, if there is one.
fn dependence_by(
    reader: u32,
    read: Option<Numbered>,
    losses: &Losses<'_>,
    mappings: &MappingList,
) -> Option<Cause>
    ensures dependence { option_map cause_of result ≡
        option_map (dependence_meant (rules_in mappings.now) losses.now.members.items reader)
        (option_map numbered_of read) }
{
    match read {
        Some(found) => Some(Cause::Depends {
            reader,
            read: found.number,
            on: losses.writer_for(&found.read, mappings),
        }),
        None => None,
    }
}

/// Whether one of the causes is for the update of this number.
pub(crate) fn is_named(causes: &CauseList, number: u32) -> bool
    ensures named { result ≡ has_number (readers_in causes.now.items) number }
{
    causes
        .as_slice()
        .iter()
        .any(|cause| reader(cause) == number)
}

// The update that the cause is for.
fn reader(cause: &Cause) -> u32
    ensures reader { result ≡ reader_in (cause_of cause.now) }
{
    match cause {
        Cause::Conflict { reader, .. } => *reader,
        Cause::Depends { reader, .. } => *reader,
    }
}

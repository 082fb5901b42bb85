//! The updates that are in conflict with the writes of a step.
ghost use Rattle.std.specs.Prelude.{◌≡◌, ◌≤◌, ◌++◌, drop, length, option_to_list, IfOk, OnOk};
ghost use Rattle.std.specs.Option.{option_map};
ghost use Rattle.base_types.specs.Contents.{rules_in};
ghost use Rattle.core_entries.specs.Meanings.{cause_of};
ghost use Rattle.chase_query.specs.Meanings.{reads_in};
ghost use Rattle.audit_replay.specs.Causes.{AreMetConflicts, AreUnmet, IsMetConflict, conflict_meant, may_conflict as may_conflict_def};
ghost use Rattle.audit_replay.specs.Changes.{any_met as any_met_def, change_meant};
ghost use Rattle.audit_replay.specs.Levels.{RisesFrom, top};
ghost use Rattle.audit_replay.specs.Places.{AreBetween};

use crate::changes::{Change, changed_read};
use crate::levels::Levels;
use crate::relations::is_any_met;
use audit_updates::{AuditedUpdate, Deps};
use base_types::{MappingList, Memory};
use chase_query::Logged;
use core_entries::{Cause, CauseList};
use std::alloc::Global;

/// The conditions of an event: the mappings, how dependences are tested, and the number of updates that were committed when it
/// began.
#[derive(Clone, Copy)]
pub(crate) struct Scene<'a> {
    pub(crate) mappings: &'a MappingList,
    pub(crate) deps: Deps,
    pub(crate) committed: u32,
}

/// The conflicts of the updates with what the writer has just written, in these relations. The uppermost level lies below the
/// first of the updates, with the writes, before the call and after it.
pub(crate) fn conflicts(
    alloc: Global,
    levels: &mut Levels,
    upper: &[AuditedUpdate],
    scene: Scene<'_>,
    writer: u32,
    relations: &[u16],
) -> Result<CauseList, Memory>
    requires between { AreBetween upper.now }
    ensures causes { IfOk result (λ causes. AreMetConflicts (rules_in scene.entry.mappings.now)
        scene.entry.committed writer relations.now (top levels.old) upper.now causes.items) }
    ensures levels { OnOk result (levels.new ≡ levels.old) }
{
    let height = levels.height();
    let reach = reach(upper, scene, relations);
    let causes = conflicts_above(alloc, levels, &upper[..reach], scene, writer, relations)?;
    levels.sink_to(height)?;
    Ok(causes)
}

// Does what `conflicts` does, but leaves the trail of each update on top of the levels.
fn conflicts_above(
    alloc: Global,
    levels: &mut Levels,
    upper: &[AuditedUpdate],
    scene: Scene<'_>,
    writer: u32,
    relations: &[u16],
) -> Result<CauseList, Memory>
    requires between { AreBetween upper.now }
    ensures causes { IfOk result (λ causes. AreMetConflicts (rules_in scene.entry.mappings.now)
        scene.entry.committed writer relations.now (top levels.old) upper.now causes.items) }
    ensures levels { OnOk result (RisesFrom levels.old levels.new) }
{
    let mut causes = CauseList::new(alloc);
    'updates: for audited in upper {
        let found = conflict_of(alloc, levels, audited, scene, writer, relations)?;
        put(&mut causes, found)?;
        levels.rise(alloc, audited.trail())?;
    }
    Ok(causes)
}

/// Appends the cause to the others, if there is one.
pub(crate) fn put(causes: &mut CauseList, found: Option<Cause>) -> Result<(), Memory>
    ensures put { OnOk result (causes.new.items ≡ causes.old.items ++ option_to_list found) }
{
    if let Some(cause) = found {
        causes.push(cause)?;
        return Ok(());
    }
    Ok(())
}

// The conflict of the update with what the writer wrote, if there is one. The uppermost level lies below the update.
fn conflict_of(
    alloc: Global,
    levels: &Levels,
    audited: &AuditedUpdate,
    scene: Scene<'_>,
    writer: u32,
    relations: &[u16],
) -> Result<Option<Cause>, Memory>
    ensures cause { IfOk result (IsMetConflict (rules_in scene.entry.mappings.now)
        scene.entry.committed writer relations.now (top levels.now) audited.now) }
{
    let reader = audited.number();
    if !audited.is_live(scene.committed, reader) {
        return Ok(None);
    }
    let below = levels.facts();
    let change = changed_read(alloc, audited, scene.mappings, below, relations)?;
    let cause = conflict_by(reader, writer, change);
    Ok(cause)
}

// The conflict by the read that has another value, if there is one.
fn conflict_by(reader: u32, writer: u32, change: Option<Change>) -> Option<Cause>
    ensures conflict { option_map cause_of result ≡
        option_map (conflict_meant writer reader) (option_map change_meant change) }
{
    match change {
        Some(change) => {
            let Change { number, read, now } = change;
            Some(Cause::Conflict {
                reader,
                read: number,
                writer,
                old: read.answer,
                new: now,
            })
        }
        None => None,
    }
}

// The number of updates up to the last one that may be in conflict.
fn reach(upper: &[AuditedUpdate], scene: Scene<'_>, relations: &[u16]) -> usize
    ensures within { result ≤ length upper.now }
    ensures none { AreUnmet (rules_in scene.entry.mappings.now) scene.entry.committed relations.now
        (drop result upper.now) }
{
    let mut reach = 0;
    let mut place = 0;
    'updates: for audited in upper {
        place += 1;
        if !may_conflict(audited, scene, relations) {
            continue;
        }
        reach = place;
    }
    reach
}

// Whether the update is live, and a read of it mentions one of the relations.
fn may_conflict(audited: &AuditedUpdate, scene: Scene<'_>, relations: &[u16]) -> bool
    ensures met { result ≡ may_conflict_def (rules_in scene.entry.mappings.now)
        scene.entry.committed relations.now audited.now }
{
    let live = audited.is_live(scene.committed, audited.number());
    let met = any_met(audited.log.as_slice(), scene.mappings, relations);
    live && met
}

// Whether one of the reads mentions one of the relations.
fn any_met(log: &[Logged], mappings: &MappingList, relations: &[u16]) -> bool
    ensures met { result ≡ any_met_def (rules_in mappings.now) relations.now (reads_in log.now) }
{
    log.iter()
        .any(|entry| is_any_met(entry, mappings, relations))
}

//! What an event leaves of the updates above it and of the versions, made before anything is changed.
ghost use Rattle.std.specs.Prelude.{◌≡◌, ◌≤◌, ◌++◌, length, is_some, IfOk, OnOk};
ghost use Rattle.core_queue.specs.Programs.{IsBetween};
ghost use Rattle.core_queue.specs.Renewals.{AllHaveOneMore, AreFresh, AreThere};
ghost use Rattle.core_engine.specs.Aftermaths.{Cleared, ClearedIf, AllBetween, in_order as in_order_def, conflict_in, dependence_in, is_conflict as is_conflict_def};

use base_types::Memory;
use chase_update::Attempt;
use core_entries::{Cause, CauseList};
use core_queue::{QueuedUpdate, fresh_programs};
use set_versions::Versions;
use std::alloc::Global;

/// What an event leaves apart from the versions: the next attempts of the updates above it that are restarted, and the causes.
#[derive(Drop)]
pub(crate) struct Aftermath {
    pub(crate) fresh: Vec<Option<Attempt>>,
    pub(crate) causes: CauseList,
}

/// Prepares the restart of the updates above that have a cause: makes their next attempts, and takes their trails out of the
/// versions. `found` has the causes, which were looked for among the first of them. On an error some of the trails may be gone.
pub(crate) fn settled(
    alloc: Global,
    versions: &mut Versions,
    upper: &[QueuedUpdate],
    found: Vec<Option<Cause>>,
) -> Result<Aftermath, Memory>
    requires long { length found.items ≤ length upper.now }
    requires more { AllHaveOneMore upper.now }
    requires between { AllBetween upper.now }
    ensures cleared { OnOk result (Cleared upper.now found.items versions.old versions.new) }
    ensures fresh { IfOk result (λ left. AreFresh upper.now left.fresh.items) }
    ensures there { IfOk result (λ left. AreThere found.items left.fresh.items) }
    ensures causes { IfOk result (λ left. left.causes.items ≡ in_order_def found.items) }
{
    let fresh = fresh_programs(alloc, upper, &found)?;
    clear(alloc, versions, upper, &found)?;
    let causes = in_order(alloc, found)?;
    Ok(Aftermath { fresh, causes })
}

// Takes back the trails of the updates that have a cause.
fn clear(
    alloc: Global,
    versions: &mut Versions,
    upper: &[QueuedUpdate],
    found: &[Option<Cause>],
) -> Result<(), Memory>
    requires long { length found.now ≤ length upper.now }
    requires between { AllBetween upper.now }
    ensures cleared { OnOk result (Cleared upper.now found.now versions.old versions.new) }
{
    for i in 0..found.len() {
        clear_one(alloc, versions, &upper[i], &found[i])?;
    }
    Ok(())
}

// Takes back the trail of the update, if it has a cause.
fn clear_one(
    alloc: Global,
    versions: &mut Versions,
    item: &QueuedUpdate,
    cause: &Option<Cause>,
) -> Result<(), Memory>
    requires between { IsBetween item.now.program }
    ensures cleared { OnOk result
        (ClearedIf (is_some cause.now) item.now versions.old versions.new) }
{
    if cause.is_some() {
        versions.retract(alloc, item.number(), item.trail())?;
    }
    Ok(())
}

// The causes: the conflicts, and then the dependences, each in number order.
fn in_order(alloc: Global, found: Vec<Option<Cause>>) -> Result<CauseList, Memory>
    ensures causes { IfOk result (λ causes. causes.items ≡ in_order_def found.items) }
{
    let mut conflicts = CauseList::new(alloc);
    let mut dependences = CauseList::new(alloc);
    for cause in found {
        put(&mut conflicts, &mut dependences, cause)?;
    }
    for dependence in dependences.into_vec() {
        conflicts.push(dependence)?;
    }
    Ok(conflicts)
}

// Puts the cause, if there is one, after the others of its kind.
fn put(
    conflicts: &mut CauseList,
    dependences: &mut CauseList,
    cause: Option<Cause>,
) -> Result<(), Memory>
    ensures conflicts { OnOk result (conflicts.new.items ≡ conflicts.old.items ++ conflict_in
        cause) }
    ensures dependences { OnOk result (dependences.new.items ≡ dependences.old.items ++
        dependence_in cause) }
{
    let Some(cause) = cause else {
        return Ok(());
    };
    if is_conflict(&cause) {
        conflicts.push(cause)?;
    } else {
        dependences.push(cause)?;
    }
    Ok(())
}

// Whether the cause is a conflict.
fn is_conflict(cause: &Cause) -> bool
    ensures { result ≡ is_conflict_def cause.now }
{
    match cause {
        Cause::Conflict { .. } => true,
        Cause::Depends { .. } => false,
    }
}

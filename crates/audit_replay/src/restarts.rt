//! Restarts of the updates that an event aborts.
ghost use Rattle.std.specs.Prelude.{◌≤◌, drop, length, OnOk, OnErr};
ghost use Rattle.audit_updates.specs.Updates.{AreFrom};
ghost use Rattle.audit_updates.specs.Events.{IsSame, KeepsPlace};
ghost use Rattle.audit_updates.specs.Renewals.{HasOneMore};
ghost use Rattle.audit_replay.specs.Restarts.{AllHaveOneMore, HasRestartedIf, HaveRestarted};

use crate::cascades::is_named;
use audit_updates::AuditedUpdate;
use base_types::Memory;
use core_entries::CauseList;
use std::alloc::Global;

/// Restarts each update, from the place on, that one of the causes is for.
pub(crate) fn restart_named(
    alloc: Global,
    updates: &mut [AuditedUpdate],
    from: usize,
    causes: &CauseList,
) -> Result<(), Memory>
    requires place { from ≤ length updates.old }
    requires numbers { AreFrom 1 updates.old }
    requires more { AllHaveOneMore (drop from updates.old) }
    ensures restarted { OnOk result (HaveRestarted from causes.now.items updates.old updates.new) }
    ensures numbers { OnOk result (AreFrom 1 updates.new) }
    ensures err { OnErr result (AreFrom 1 updates.new) }
{
    for place in from..updates.len() {
        restart_if_named(alloc, &mut updates[place], causes)?;
    }
    Ok(())
}

// Restarts the update if one of the causes is for it.
fn restart_if_named(
    alloc: Global,
    audited: &mut AuditedUpdate,
    causes: &CauseList,
) -> Result<(), Memory>
    requires more { HasOneMore audited.old }
    ensures restarted { OnOk result (HasRestartedIf causes.now.items audited.old audited.new) }
    ensures place { OnOk result (KeepsPlace audited.old audited.new) }
    ensures err { OnErr result (IsSame audited.old audited.new) }
{
    if is_named(causes, audited.number()) {
        audited.restart(alloc)?;
        return Ok(());
    }
    Ok(())
}

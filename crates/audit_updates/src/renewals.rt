//! Restarts.
ghost use Rattle.std.specs.Prelude.{OnOk, OnErr};
ghost use Rattle.audit_updates.specs.Events.{IsSame, KeepsPlace};
ghost use Rattle.audit_updates.specs.Renewals.{HasOneMore, HasRestarted};

use crate::events::renew;
use crate::updates::AuditedUpdate;
use base_types::Memory;
use std::alloc::Global;

impl AuditedUpdate {
    /// Begins the next attempt: the update loses its writes and its log, and keeps its answers. After an error the update is
    /// unchanged.
    pub fn restart(&mut self, alloc: Global) -> Result<(), Memory>
        requires more { HasOneMore self.old }
        ensures restarted { OnOk result (HasRestarted self.old self.new) }
        ensures place { OnOk result (KeepsPlace self.old self.new) }
        ensures err { OnErr result (IsSame self.old self.new) }
    {
        let fresh = self.program.begun_again(alloc)?;
        renew(&mut self.program, fresh);
        self.log.clear();
        Ok(())
    }
}

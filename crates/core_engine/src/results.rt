//! The result of a core, and what a session comes to whose core is drained.
ghost use Rattle.std.specs.Prelude.{◌≡◌, ◌≤◌, None, true, IfOk, OnOk};
ghost use Rattle.def_language.specs.Validity.{IsSession};
ghost use Rattle.lang_session.specs.Base.{base_violation};
ghost use Rattle.lang_session.specs.Meanings.{session_of};
ghost use Rattle.run_serial.specs.Meanings.{IsSerialRun};
ghost use Rattle.base_types.specs.Contents.{facts_of};
ghost use Rattle.core_engine.specs.Drained.{HasTurned};
ghost use Rattle.core_engine.specs.Lives.{serially_left};
ghost use Rattle.core_engine.specs.Results.{IsResultOf};
ghost use Rattle.core_engine.specs.States.{is_quiet_at};

use crate::cores::Core;
use base_limits::Budget;
use base_types::{Memory, TupleList};
use chase_update::SessionResult;
use core_queue::Settings;
use core_result::{left, told};
use lang_session::Session;
use run_serial::base_of;
use std::alloc::Global;

impl<'s> Core<'s> {
    /// How the committed updates ended, where the lowest that is not committed stops, and the repository that the committed
    /// ones left. Nulls are in their outer forms.
    pub fn result(&self, alloc: Global) -> Result<SessionResult, Memory>
        ensures told { IfOk result (IsResultOf self.now) }
    {
        let told = told(alloc, &self.queue, &self.versions)?;
        Ok(told)
    }

    /// The repository that the committed updates left, in order, with nulls in their outer forms. It is what the serial machine
    /// leaves that takes these updates alone, each whole, in number order, with the answers delivered to it.
    pub fn repository(&self, alloc: Global) -> Result<TupleList, Memory>
        ensures serial { IfOk result (λ tuples. facts_of tuples ≡ serially_left self.now) }
    {
        let tuples = left(alloc, &self.queue, &self.versions)?;
        Ok(tuples)
    }
}

/// The result of the session by a core that is drained. Whatever the settings, it is the result of the serial run.
pub fn drained(
    alloc: Global,
    session: &Session,
    settings: Settings,
    budget: Budget,
) -> Result<SessionResult, Memory>
    requires valid { IsSession (session_of session.now) }
    requires met { base_violation (session_of session.now) ≡ None }
    requires retries { settings.retries ≤ 4 }
    ensures told { IfOk result (IsSerialRun budget (session_of session.now)) }
{
    let base = base_of(alloc, session)?;
    let mut core = Core::open_met(alloc, session, base, settings, budget)?;
    core.is_legal();
    came_to(alloc, &mut core)
}

// The result of the core once it is drained.
fn came_to(alloc: Global, core: &mut Core<'_>) -> Result<SessionResult, Memory>
    ensures turned { HasTurned core.old core.new }
    ensures quiet { OnOk result (is_quiet_at core.new ≡ true) }
    ensures told { IfOk result (IsResultOf core.new) }
{
    core.drain(alloc)?;
    let told = core.result(alloc)?;
    Ok(told)
}

//! A session run by worker threads, and what it comes to.
ghost use Rattle.std.specs.Prelude.{◌≡◌, ◌≤◌, None, map, IfOk};
ghost use Rattle.core_entries.specs.Meanings.{entry_of};
ghost use Rattle.def_language.specs.Validity.{IsSession};
ghost use Rattle.core_queue.specs.Settings.{settings_of};
ghost use Rattle.run_serial.specs.Meanings.{IsSerialRun};
ghost use Rattle.lang_session.specs.Base.{base_violation};
ghost use Rattle.lang_session.specs.Meanings.{session_of};
ghost use Rattle.work_session.specs.Runs.{IsWholeRun};

use crate::run;
use crate::seated::{Answers, Seated};
use base_limits::Budget;
use base_types::Memory;
use chase_update::SessionResult;
use core_engine::Core;
use core_entries::Entry;
use core_queue::Settings;
use lang_session::Session;
use run_serial::base_of;
use set_facts::IndexedFacts;
use std::alloc::Global;
use std::marker::Model;
use std::sync::Wait;
use std::thread::Threads;
use std::time::Clock;
use work_loop::Gate;

/// How a session is run: the settings of its core, the budget of an attempt, the number of workers, and when recorded answers are
/// delivered.
#[derive(Clone, Copy)]
pub struct Working {
    pub settings: Settings,
    pub budget: Budget,
    pub seats: u64,
    pub answers: Answers,
}

/// A session that was run to its end. Contracts see the session, the budget and the settings, and the entries of its history.
#[derive(Drop)]
pub struct WorkedSession<'s> {
    session: &'s Session,
    settings: Settings,
    budget: Budget,
    core: Core<'s>,
}

impl<'s> Model for WorkedSession<'s> {
    ghost use Rattle.lang_session.specs.Meanings.{session_of};
    ghost use Rattle.core_queue.specs.Settings.{settings_of};
    ghost use Rattle.work_session.specs.Runs.{Run, IsWorked};

    ghost Value = { Run };

    ghost view = { λ w. record {
      session = session_of w.session.now;
      budget = w.budget;
      settings = settings_of w.settings;
      history = w.core.history;
    } };

    ghost invariant = { λ w.
        IsWorked (session_of w.session.now) w.budget (settings_of w.settings) w.core };
}

impl<'s> WorkedSession<'s> {
    /// The entries of the history: first the admissions of all updates, then steps and deliveries, until nothing is ready and
    /// nothing can be delivered.
    pub fn history(&self) -> &[Entry]
        ensures history { map entry_of result.now ≡ self.now.history }
        ensures whole { IsWholeRun self.now }
    {
        self.core.history()
    }

    /// The session's result: whatever the schedule of the workers, it is the result of the serial run.
    pub fn result(&self, alloc: Global) -> Result<SessionResult, Memory>
        ensures serial { IfOk result (IsSerialRun self.now.budget self.now.session) }
    {
        self.core.is_legal();
        let told = self.core.result(alloc)?;
        Ok(told)
    }
}

/// Runs the session by `seats` workers, from 1 to 16, each in a thread of its own, until nothing is left to do. If a thread
/// cannot be made, the calling thread works in its place. Recorded answers are delivered at once.
pub fn worked<'s, R: Threads + Wait + Clock + Sync, G: Gate + Sync>(
    rt: &R,
    gate: &G,
    alloc: Global,
    session: &'s Session,
    settings: Settings,
    budget: Budget,
    seats: u64,
) -> Result<WorkedSession<'s>, Memory>
    requires valid { IsSession (session_of session.now) }
    requires met { base_violation (session_of session.now) ≡ None }
    requires retries { settings.retries ≤ 4 }
    requires seats { (1 ≤ seats) × (seats ≤ 16) }
    ensures session { IfOk result (λ run. run.session ≡ session_of session.now) }
    ensures budget { IfOk result (λ run. run.budget ≡ budget) }
    ensures settings { IfOk result (λ run. run.settings ≡ settings_of settings) }
    ensures whole { IfOk result IsWholeRun }
{
    let base = base_of(alloc, session)?;
    let working = Working {
        settings,
        budget,
        seats,
        answers: Answers::AtOnce,
    };
    let run = worked_over(rt, gate, alloc, session, base, working)?;
    Ok(run)
}

/// Runs the session as `worked` does, with its base given as a set of tuples (`base_of`), and recorded answers delivered as
/// `working` says.
pub fn worked_over<'s, R: Threads + Wait + Clock + Sync, G: Gate + Sync>(
    rt: &R,
    gate: &G,
    alloc: Global,
    session: &'s Session,
    base: IndexedFacts,
    working: Working,
) -> Result<WorkedSession<'s>, Memory>
    requires valid { IsSession (session_of session.now) }
    requires met { base_violation (session_of session.now) ≡ None }
    requires base { base ≡ (session_of session.now).base }
    requires retries { working.settings.retries ≤ 4 }
    requires seats { (1 ≤ working.seats) × (working.seats ≤ 16) }
    ensures session { IfOk result (λ run. run.session ≡ session_of session.now) }
    ensures budget { IfOk result (λ run. run.budget ≡ working.budget) }
    ensures settings { IfOk result (λ run. run.settings ≡ settings_of working.settings) }
    ensures whole { IfOk result IsWholeRun }
{
    let Working {
        settings,
        budget,
        seats,
        answers,
    } = working;
    let core = Core::open_met(alloc, session, base, settings, budget)?;
    core.is_legal();
    let seated = Seated::new(core, answers);
    match run(rt, gate, alloc, seated, seats) {
        Ok(seated) => Ok(WorkedSession {
            session,
            settings,
            budget,
            core: seated.into_core(),
        }),
        Err(_) => Err(Memory),
    }
}

//! The serial run of a session: its updates taken whole in turn, up to the first that stops.
ghost use Rattle.std.specs.Prelude.{◌≡◌, ◌≤◌, ◌+◌, length, None, IfOk, OnOk};
ghost use Rattle.def_language.specs.Checks.{rules_of};
ghost use Rattle.def_language.specs.Validity.{IsSession};
ghost use Rattle.def_chase.specs.Repository.{IsRepository};
ghost use Rattle.chase_update.specs.Results.{result_of};
ghost use Rattle.lang_session.specs.Base.{base_violation};
ghost use Rattle.lang_session.specs.Meanings.{session_of};
ghost use Rattle.run_serial.specs.Meanings.{HasTaken, HasTakenAll, IsSerialRun, requests_of};
ghost use Rattle.run_serial.specs.Runs.{told_from};

use crate::endings::{end, stop};
use crate::repositories::told;
use crate::wholes::take_whole;
use base_limits::{Budget, Mappings};
use base_types::Memory;
use chase_plan::TouchedMappings;
use chase_update::{FinishList, SessionResult, Stop};
use def_steps::laws::serial_scopes_agree;
use lang_session::{Session, SessionUpdate, base_holds, sessions_suit_the_chase};
use set_facts::{IndexedFacts, PlainFacts};
use std::alloc::Global;

/// The base of a session as the set of tuples that its run begins with.
pub fn base_of(alloc: Global, session: &Session) -> Result<IndexedFacts, Memory>
    requires sorted { IsRepository (session_of session.now).base }
    ensures same { IfOk result (λ base. base ≡ (session_of session.now).base) }
{
    let base = PlainFacts::of_list(alloc, &session.base)?;
    Ok(IndexedFacts::of(alloc, base)?)
}

/// The mappings of a session, which is valid and so within the limits.
pub fn mappings_of(session: &Session) -> Mappings<'_>
    requires valid { IsSession (session_of session.now) }
    ensures rules { result ≡ rules_of (session_of session.now).mappings }
{
    Mappings::of(&session.mappings)
}

/// The serial run of a session: its updates taken whole, one after the other in the order of their numbers, up to the first
/// that stops at a question.
pub fn serial(alloc: Global, session: &Session, budget: Budget) -> Result<SessionResult, Memory>
    requires valid { IsSession (session_of session.now) }
    requires met { base_violation (session_of session.now) ≡ None }
    ensures told { IfOk result (IsSerialRun budget (session_of session.now)) }
{
    let base = base_of(alloc, session)?;
    serial_over(alloc, session, base, budget)
}

/// The serial run of a session over its base, which is handed over as a set of tuples (`base_of`).
pub fn serial_over(
    alloc: Global,
    session: &Session,
    base: IndexedFacts,
    budget: Budget,
) -> Result<SessionResult, Memory>
    requires valid { IsSession (session_of session.now) }
    requires met { base_violation (session_of session.now) ≡ None }
    requires base { base ≡ (session_of session.now).base }
    ensures told { IfOk result (IsSerialRun budget (session_of session.now)) }
{
    sessions_suit_the_chase();
    base_holds();
    serial_scopes_agree();
    let updates = session.updates.as_slice();
    budget.is_within();
    let mappings = mappings_of(session);
    run(alloc, base, updates, mappings, budget)
}

// The run of these updates over the base; the first of them has number 1.
fn run(
    alloc: Global,
    base: IndexedFacts,
    updates: &[SessionUpdate],
    mappings: Mappings<'_>,
    budget: Budget,
) -> Result<SessionResult, Memory>
    requires sorted { IsRepository base }
    requires few { length updates.now ≤ 1000 }
    ensures told { IfOk result (λ told.
        result_of told ≡ told_from mappings.entry budget base 1 (requests_of updates.now)) }
{
    let mut finishes = FinishList::new(alloc);
    let mut facts = base;
    let mappings = TouchedMappings::of(alloc, mappings)?;
    let stop = take_all(alloc, &mut finishes, &mut facts, updates, &mappings, budget)?;
    let repository = told(alloc, facts)?;
    Ok(SessionResult {
        finishes,
        stop,
        repository,
    })
}

// Takes the updates whole in turn, up to the first that stops, and returns its stop. Their finishes are added, and the writes
// that they show are made.
fn take_all(
    alloc: Global,
    finishes: &mut FinishList,
    facts: &mut IndexedFacts,
    updates: &[SessionUpdate],
    mappings: &TouchedMappings<'_>,
    budget: Budget,
) -> Result<Option<Stop>, Memory>
    requires sorted { IsRepository facts.old }
    requires few { length updates.now ≤ 1000 }
    ensures told { IfOk result (HasTakenAll mappings.now budget updates.now
        finishes.old facts.old finishes.new facts.new) }
{
    let mut number = 1;
    for update in updates {
        if let Some(stop) = turn(alloc, finishes, facts, number, update, mappings, budget)? {
            return Ok(Some(stop));
        }
        number += 1;
    }
    Ok(None)
}

// The turn of the update of this number. It is taken whole: if it ends, its finish is added and the writes that it shows are
// made; else it stops.
fn turn(
    alloc: Global,
    finishes: &mut FinishList,
    facts: &mut IndexedFacts,
    number: u32,
    update: &SessionUpdate,
    mappings: &TouchedMappings<'_>,
    budget: Budget,
) -> Result<Option<Stop>, Memory>
    requires sorted { IsRepository facts.old }
    ensures sorted { OnOk result (IsRepository facts.new) }
    ensures told { IfOk result (HasTaken mappings.now budget number update.now
        finishes.old facts.old finishes.new facts.new) }
{
    let rest = take_whole(alloc, number, update, facts, mappings, budget)?;
    match rest.lack {
        Some(lack) => Ok(Some(stop(alloc, rest.program, number, lack)?)),
        None => {
            end(alloc, finishes, facts, rest.program)?;
            Ok(None)
        }
    }
}

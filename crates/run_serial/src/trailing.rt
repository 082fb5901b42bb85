//! The trail of each update of the serial run: the writes that it leaves, in their order.
ghost use Rattle.std.specs.Prelude.{◌≡◌, ◌≤◌, length, map, true, is_some, None, Some, IfOk, OnOk};
ghost use Rattle.std.specs.Option.{option_map};
ghost use Rattle.def_language.specs.Validity.{IsSession};
ghost use Rattle.def_chase.specs.Repository.{IsRepository};
ghost use Rattle.lang_session.specs.Base.{base_violation};
ghost use Rattle.lang_session.specs.Meanings.{request_of, session_of, update_of};
ghost use Rattle.def_steps.specs.Attempts.{outcome_in};
ghost use Rattle.run_serial.specs.Meanings.{HasCommitted};
ghost use Rattle.run_serial.specs.Trails.{HasLeft, HasTrailed, HasTrailedAll, IsTrail, IsTrailed, trailed_from, trailed_of};

use crate::endings::{finish, stop};
use crate::repositories::keep;
use crate::runs::mappings_of;
use crate::wholes::take_whole;
use base_limits::{Budget, Mappings};
use base_types::{List, Memory, TryCopy, WriteList};
use chase_plan::TouchedMappings;
use chase_update::{Attempt, Outcome, Stop};
use lang_session::{Session, SessionUpdate, base_holds, sessions_suit_the_chase};
use set_facts::IndexedFacts;
use std::alloc::Global;

/// Trails in the order of their updates.
pub type TrailList = List<WriteList>;

/// What a run leaves: the trail of each update that came to its end, and the stop, if there is one. The trail of an update that
/// is done is its own writes; of any other it is empty.
#[derive(Drop)]
pub struct Trailed {
    pub trails: TrailList,
    pub stop: Option<Stop>,
}

/// The trails of the serial run of a session over its base, which is handed over as a set of tuples (`base_of`).
pub fn trails(
    alloc: Global,
    session: &Session,
    base: IndexedFacts,
    budget: Budget,
) -> Result<Trailed, Memory>
    requires valid { IsSession (session_of session.now) }
    requires met { base_violation (session_of session.now) ≡ None }
    requires base { base ≡ (session_of session.now).base }
    ensures left { IfOk result (IsTrailed budget (session_of session.now)) }
{
    sessions_suit_the_chase();
    base_holds();
    let updates = session.updates.as_slice();
    budget.is_within();
    let mappings = mappings_of(session);
    run(alloc, base, updates, mappings, budget)
}

// What these updates leave over the base; the first of them has number 1.
fn run(
    alloc: Global,
    base: IndexedFacts,
    updates: &[SessionUpdate],
    mappings: Mappings<'_>,
    budget: Budget,
) -> Result<Trailed, Memory>
    requires sorted { IsRepository base }
    requires few { length updates.now ≤ 1000 }
    ensures left { IfOk result (λ left.
        trailed_of left ≡ trailed_from mappings.entry budget base 1
        (map request_of (map update_of updates.now))) }
{
    let mut trails = TrailList::new(alloc);
    let mut facts = base;
    let mappings = TouchedMappings::of(alloc, mappings)?;
    let stop = take_all(alloc, &mut trails, &mut facts, updates, &mappings, budget)?;
    Ok(Trailed { trails, stop })
}

// Takes the updates whole in turn, up to the first that stops, and returns its stop. Their trails are added.
fn take_all(
    alloc: Global,
    trails: &mut TrailList,
    facts: &mut IndexedFacts,
    updates: &[SessionUpdate],
    mappings: &TouchedMappings<'_>,
    budget: Budget,
) -> Result<Option<Stop>, Memory>
    requires sorted { IsRepository facts.old }
    requires few { length updates.now ≤ 1000 }
    ensures left { IfOk result (HasTrailedAll mappings.now budget updates.now
        trails.old facts.old trails.new) }
{
    let mut number = 1;
    for update in updates {
        if let Some(stop) = turn(alloc, trails, facts, number, update, mappings, budget)? {
            return Ok(Some(stop));
        }
        number += 1;
    }
    Ok(None)
}

// The turn of the update of this number. It is taken whole: if it ends, its trail is added and made; else it stops.
fn turn(
    alloc: Global,
    trails: &mut TrailList,
    facts: &mut IndexedFacts,
    number: u32,
    update: &SessionUpdate,
    mappings: &TouchedMappings<'_>,
    budget: Budget,
) -> Result<Option<Stop>, Memory>
    requires sorted { IsRepository facts.old }
    ensures sorted { OnOk result (IsRepository facts.new) }
    ensures left { IfOk result (HasTrailed mappings.now budget number update.now
        trails.old facts.old trails.new facts.new) }
{
    let rest = take_whole(alloc, number, update, facts, mappings, budget)?;
    match rest.lack {
        Some(lack) => Ok(Some(stop(alloc, rest.program, number, lack)?)),
        None => {
            end(alloc, trails, facts, rest.program)?;
            Ok(None)
        }
    }
}

// Adds the trail of an update that has ended, and makes its writes.
fn end(
    alloc: Global,
    trails: &mut TrailList,
    facts: &mut IndexedFacts,
    program: Attempt,
) -> Result<(), Memory>
    requires between { program.reading ≡ None }
    requires ended { is_some (outcome_in program.attempt.phase) ≡ true }
    ensures left { OnOk result (HasLeft program.attempt trails.old trails.new) }
    ensures kept { OnOk result (HasCommitted facts.old program.attempt facts.new) }
{
    let outcome = finish(&program).outcome;
    let own = program.into_own(alloc)?;
    let trail = trail(alloc, &own, outcome)?;
    keep(facts, own, outcome)?;
    trails.push(trail)?;
    Ok(())
}

// The trail of an update with these own writes that has ended so.
fn trail(alloc: Global, own: &WriteList, outcome: Outcome) -> Result<WriteList, Memory>
    ensures { IfOk result (λ trail. IsTrail own.now outcome trail) }
{
    match outcome {
        Outcome::Done => own.copy(alloc),
        Outcome::Spent => Ok(WriteList::new(alloc)),
        Outcome::Refused { .. } => Ok(WriteList::new(alloc)),
    }
}

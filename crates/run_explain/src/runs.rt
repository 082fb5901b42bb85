//! The noted run of a session: its updates taken whole in turn, up to the first that stops.
ghost use Rattle.std.specs.Prelude.{◌≡◌, ◌≤◌, ◌++◌, [], if◌then◌else◌, length, true, is_some, is_none, None, IfOk, OnOk};
ghost use Rattle.def_language.specs.Validity.{IsSession};
ghost use Rattle.def_chase.specs.Repository.{IsRepository};
ghost use Rattle.chase_update.specs.PointMeanings.{want_of};
ghost use Rattle.chase_update.specs.Results.{result_of};
ghost use Rattle.def_provenance.specs.Courses.{is_done_with};
ghost use Rattle.run_serial.specs.Meanings.{HasCommitted, HasEnded, HasTaken as HasTakenTurn, HasTakenAll, IsSerialRun, requests_of};
ghost use Rattle.run_serial.specs.Runs.{told_from};
ghost use Rattle.lang_session.specs.Base.{base_violation};
ghost use Rattle.lang_session.specs.Meanings.{session_of};
ghost use Rattle.def_steps.specs.Attempts.{outcome_in, question_in};
ghost use Rattle.run_explain.specs.NoteMeanings.{notes_in};
ghost use Rattle.run_explain.specs.Turns.{HasNotedTurn, HasNotedAll, IsNotedRun, OnceTaken, noted_from, wants_none_done};

use crate::notes::{NoteList, add_all};
use crate::wholes::{Taken, take_whole};
use base_limits::Budget;
use base_types::Memory;
use chase_plan::Chase;
use chase_update::{Attempt, FinishList, Outcome, SessionResult, Stop, Want};
use def_provenance::laws::steps_agree_in_scopes;
use def_steps::laws::serial_scopes_agree;
use lang_session::{Session, SessionUpdate, base_holds, sessions_suit_the_chase};
use run_serial::endings::{end, stop};
use run_serial::mappings_of;
use run_serial::repositories::told;
use set_facts::IndexedFacts;
use std::alloc::Global;

/// The result of a run, and what was noted of the steps of its updates that are done.
#[derive(Drop)]
pub struct NotedRun {
    pub result: SessionResult,
    pub notes: NoteList,
}

/// The serial run of a session over its base, which is handed over as a set of tuples, with its notes.
pub fn noted_serial(
    alloc: Global,
    session: &Session,
    base: IndexedFacts,
    budget: Budget,
) -> Result<NotedRun, Memory>
    requires valid { IsSession (session_of session.now) }
    requires met { base_violation (session_of session.now) ≡ None }
    requires base { base ≡ (session_of session.now).base }
    ensures told { IfOk result (λ run. IsSerialRun budget (session_of session.now) run.result) }
    ensures noted { IfOk result (IsNotedRun budget (session_of session.now)) }
{
    sessions_suit_the_chase();
    base_holds();
    serial_scopes_agree();
    steps_agree_in_scopes();
    let updates = session.updates.as_slice();
    budget.is_within();
    let mappings = mappings_of(session);
    let chase = Chase {
        mappings: &mappings,
        budget,
    };
    run(alloc, base, updates, &chase)
}

// The run of these updates over the base; the first of them has number 1.
fn run(
    alloc: Global,
    base: IndexedFacts,
    updates: &[SessionUpdate],
    chase: &Chase<'_>,
) -> Result<NotedRun, Memory>
    requires sorted { IsRepository base }
    requires few { length updates.now ≤ 1000 }
    ensures told { IfOk result (λ run.
        result_of run.result ≡ told_from chase.now.mappings.now chase.now.budget base 1
        (requests_of updates.now)) }
    ensures noted { IfOk result (λ run.
        notes_in run.notes ≡ noted_from chase.now.mappings.now chase.now.budget base 1
        (requests_of updates.now)) }
{
    let mut finishes = FinishList::new(alloc);
    let mut notes = NoteList::new(alloc);
    let mut facts = base;
    let stop = take_all(alloc, &mut finishes, &mut notes, &mut facts, updates, chase)?;
    let repository = told(alloc, facts)?;
    Ok(NotedRun {
        result: SessionResult {
            finishes,
            stop,
            repository,
        },
        notes,
    })
}

// Takes the updates whole in turn, up to the first that stops, and returns its stop. Their finishes and their notes are added,
// and their writes made.
fn take_all(
    alloc: Global,
    finishes: &mut FinishList,
    notes: &mut NoteList,
    facts: &mut IndexedFacts,
    updates: &[SessionUpdate],
    chase: &Chase<'_>,
) -> Result<Option<Stop>, Memory>
    requires sorted { IsRepository facts.old }
    requires few { length updates.now ≤ 1000 }
    ensures told { IfOk result (HasTakenAll chase.now.mappings.now chase.now.budget
        updates.now finishes.old facts.old finishes.new facts.new) }
    ensures noted { OnOk result (HasNotedAll chase.now.mappings.now chase.now.budget
        updates.now notes.old facts.old notes.new) }
{
    let mut number = 1;
    for update in updates {
        let over = turn(alloc, finishes, notes, facts, number, update, chase)?;
        if let Some(stop) = over {
            return Ok(Some(stop));
        }
        number += 1;
    }
    Ok(None)
}

// The turn of the update of this number. It is taken whole: if it ends, its finish and its notes are added and its writes made;
// else it stops.
fn turn(
    alloc: Global,
    finishes: &mut FinishList,
    notes: &mut NoteList,
    facts: &mut IndexedFacts,
    number: u32,
    update: &SessionUpdate,
    chase: &Chase<'_>,
) -> Result<Option<Stop>, Memory>
    requires sorted { IsRepository facts.old }
    ensures sorted { OnOk result (IsRepository facts.new) }
    ensures told { IfOk result (HasTakenTurn chase.now.mappings.now chase.now.budget number
        update.now finishes.old facts.old finishes.new facts.new) }
    ensures noted { IfOk result (HasNotedTurn chase.now.mappings.now chase.now.budget number
        update.now notes.old facts.old notes.new facts.new) }
{
    let taken = take_whole(alloc, number, update, facts, chase)?;
    close(alloc, finishes, notes, facts, number, taken)
}

// Ends the turn of an update that has come to rest.
fn close(
    alloc: Global,
    finishes: &mut FinishList,
    notes: &mut NoteList,
    facts: &mut IndexedFacts,
    number: u32,
    taken: Taken,
) -> Result<Option<Stop>, Memory>
    requires sorted { IsRepository facts.old }
    requires between { taken.program.reading ≡ None }
    requires asked { is_some (question_in taken.program.attempt.phase) ≡ is_some taken.lack }
    requires ended { is_some (outcome_in taken.program.attempt.phase) ≡ is_none taken.lack }
    ensures sorted { OnOk result (IsRepository facts.new) }
    ensures told { IfOk result (λ stop. OnceTaken facts.old number taken (λ ms B update.
        HasTakenTurn ms B number update finishes.old facts.old finishes.new facts.new stop)) }
    ensures noted { IfOk result (λ stop. OnceTaken facts.old number taken (λ ms B update.
        HasNotedTurn ms B number update notes.old facts.old notes.new facts.new stop)) }
{
    match taken.lack {
        Some(lack) => Ok(Some(stop(alloc, taken.program, number, lack)?)),
        None => {
            ended(alloc, finishes, notes, facts, taken.program, taken.notes)?;
            Ok(None)
        }
    }
}

// Adds the finish of an update that has ended, makes the writes that it shows, and, if it is done, adds its notes.
fn ended(
    alloc: Global,
    finishes: &mut FinishList,
    notes: &mut NoteList,
    facts: &mut IndexedFacts,
    program: Attempt,
    made: NoteList,
) -> Result<(), Memory>
    requires between { program.reading ≡ None }
    requires ended { is_some (outcome_in program.attempt.phase) ≡ true }
    ensures told { OnOk result (HasEnded program.attempt finishes.old finishes.new) }
    ensures kept { OnOk result (HasCommitted facts.old program.attempt facts.new) }
    ensures noted { OnOk result (notes_in notes.new ≡ notes_in notes.old ++
        (if is_done_with (outcome_in program.attempt.phase) then notes_in made else [])) }
{
    let done = is_done(&program);
    end(alloc, finishes, facts, program)?;
    keep(notes, made, done)?;
    Ok(())
}

// Adds what was noted of an update that has ended, if it is done.
fn keep(notes: &mut NoteList, made: NoteList, done: bool) -> Result<(), Memory>
    ensures kept { OnOk result (notes_in notes.new ≡ notes_in notes.old ++
        (if done then notes_in made else [])) }
{
    if done {
        return add_all(notes, made);
    }
    Ok(())
}

// Whether the update has ended with its work done.
fn is_done(program: &Attempt) -> bool
    requires between { program.now.reading ≡ None }
    ensures done { result ≡ is_done_with (outcome_in program.now.attempt.phase) }
{
    is_done_at(program.wants())
}

fn is_done_at(want: Want<'_>) -> bool
    ensures done { result ≡ wants_none_done (want_of want.entry) }
{
    match want {
        Want::Ended(Outcome::Done) => true,
        Want::Ended(Outcome::Spent) => false,
        Want::Ended(Outcome::Refused { .. }) => false,
        Want::Read(_) => false,
        Want::Choice(_) => false,
        Want::NextStep => false,
    }
}

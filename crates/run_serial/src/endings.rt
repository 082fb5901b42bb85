//! What is reported of an update that has come to rest.
ghost use Rattle.std.specs.Prelude.{◌≡◌, ℕ, [], ◌∷◌, true, map, is_some, None, Some, IfOk, OnOk, OnErr};
ghost use Rattle.std.specs.Option.{option_map};
ghost use Rattle.def_steps.specs.Attempts.{question_in, outcome_in};
ghost use Rattle.def_steps.specs.Serial.{finished, stopped};
ghost use Rattle.chase_update.specs.PointMeanings.{end_of};
ghost use Rattle.chase_update.specs.Results.{finish_in, finish_of, lack_of, stop_in, stop_of};
ghost use Rattle.chase_update.specs.Wishes.{end_in};
ghost use Rattle.run_serial.specs.Meanings.{HasCommitted, HasEnded, HasMadeSome};

use crate::repositories::keep;
use base_types::{Memory, TryCopy};
use chase_update::{Attempt, Finish, FinishList, Lack, Stop, Want};
use set_facts::IndexedFacts;
use std::alloc::Global;

/// The finish of an update that has ended.
pub(crate) fn finish(program: &Attempt) -> Finish
    requires between { program.now.reading ≡ None }
    requires ended { is_some (outcome_in program.now.attempt.phase) ≡ true }
    ensures told { (n : ℕ) → map finish_in (finished n program.now.attempt) ≡
        finish_of result ∷ [] }
    ensures outcome { option_map end_in (outcome_in program.now.attempt.phase) ≡
        Some (end_of result.outcome) }
{
    match program.wants() {
        Want::Ended(outcome) => Finish {
            outcome,
            steps: program.steps(),
            nulls: program.nulls(),
        },
        _ => unreachable!(),
    }
}

/// The stop of the update of this number, which is at a question at which this is lacking; the attempt is dropped.
pub fn stop(alloc: Global, program: Attempt, number: u32, lack: Lack) -> Result<Stop, Memory>
    requires between { program.reading ≡ None }
    requires asked { is_some (question_in program.attempt.phase) ≡ true }
    ensures told { IfOk result (λ stop.
        option_map stop_in (stopped number program.attempt (lack_of lack)) ≡
        Some (stop_of stop)) }
{
    let told = stop_at(alloc, &program, number, lack);
    drop(program);
    told
}

// The stop of the update of this number, at its question.
fn stop_at(alloc: Global, program: &Attempt, number: u32, lack: Lack) -> Result<Stop, Memory>
    requires between { program.now.reading ≡ None }
    requires asked { is_some (question_in program.now.attempt.phase) ≡ true }
    ensures told { IfOk result (λ stop.
        option_map stop_in (stopped number program.now.attempt (lack_of lack)) ≡
        Some (stop_of stop)) }
{
    match program.wants() {
        Want::Choice(question) => {
            let question = question.copy(alloc)?;
            Ok(Stop {
                update: number,
                question,
                lack,
            })
        }
        _ => unreachable!(),
    }
}

/// Adds the finish of an update that has ended, and makes the writes that it shows. On an error the finishes are unchanged, and
/// some of the writes, from the first on, may have been made.
pub fn end(
    alloc: Global,
    finishes: &mut FinishList,
    facts: &mut IndexedFacts,
    program: Attempt,
) -> Result<(), Memory>
    requires between { program.reading ≡ None }
    requires ended { is_some (outcome_in program.attempt.phase) ≡ true }
    ensures told { OnOk result (HasEnded program.attempt finishes.old finishes.new) }
    ensures kept { OnOk result (HasCommitted facts.old program.attempt facts.new) }
    ensures untold { OnErr result (finishes.new.items ≡ finishes.old.items) }
    ensures unkept { OnErr result (HasMadeSome facts.old program.attempt.own facts.new) }
{
    let finish = finish(&program);
    let own = program.into_own(alloc)?;
    finishes.reserve(1)?;
    keep(facts, own, finish.outcome)?;
    finishes.push(finish)?;
    Ok(())
}

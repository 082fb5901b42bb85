//! An update taken whole: steps up to its end, or to a question at which something is lacking.
ghost use Rattle.std.specs.Prelude.{◌≡◌, ◌<◌, [], IfOk, OnOk, None, is_some, is_none};
ghost use Rattle.base_types.specs.Contents.{choices_of};
ghost use Rattle.def_chase.specs.Repository.{IsRepository};
ghost use Rattle.def_steps.specs.Attempts.{question_in, outcome_in};
ghost use Rattle.run_serial.specs.Meanings.{RestsFrom, RestsWhole};
ghost use Rattle.run_step.specs.Turns.{view_of};

use base_limits::{Budget, Mappings};
use base_types::{ChoiceList, Memory};
use chase_eval::WatchedView;
use chase_plan::TouchedMappings;
use chase_update::{Attempt, Lack};
use lang_session::SessionUpdate;
use run_step::{Next, step, what_next};
use set_facts::IndexedFacts;
use std::alloc::Global;

/// An update that has come to rest: at its end, or at a question at which something is lacking.
#[derive(Drop)]
pub(crate) struct Rest {
    pub program: Attempt,
    pub lack: Option<Lack>,
}

/// The update of this number taken whole over the repository, by attempt 0.
pub(crate) fn take_whole(
    alloc: Global,
    number: u32,
    update: &SessionUpdate,
    facts: &IndexedFacts,
    mappings: &TouchedMappings<'_>,
    budget: Budget,
) -> Result<Rest, Memory>
    requires sorted { IsRepository facts.now }
    ensures rest { IfOk result (RestsWhole mappings.now budget facts.now number update.now) }
    ensures between { IfOk result (λ rest. rest.program.reading ≡ None) }
    ensures asked { IfOk result (λ r. is_some (question_in r.program.attempt.phase) ≡
        is_some r.lack) }
    ensures ended { IfOk result (λ r. is_some (outcome_in r.program.attempt.phase) ≡
        is_none r.lack) }
{
    budget.is_within();
    let mut program = Attempt::start(alloc, &update.update, number, 0)?;
    match go_on(
        alloc,
        &mut program,
        &update.answers,
        facts,
        mappings,
        budget,
    ) {
        Ok(lack) => Ok(Rest { program, lack }),
        Err(memory) => {
            drop(program);
            Err(memory)
        }
    }
}

// Makes the steps of the attempt, which has made none, over the repository, up to its rest there. Returns what is lacking.
fn go_on(
    alloc: Global,
    program: &mut Attempt,
    answers: &ChoiceList,
    facts: &IndexedFacts,
    mappings: &TouchedMappings<'_>,
    budget: Budget,
) -> Result<Option<Lack>, Memory>
    requires sorted { IsRepository facts.now }
    requires between { program.old.reading ≡ None }
    requires fresh { program.old.attempt.own ≡ [] }
    requires left { program.old.attempt.steps < budget }
    ensures rests { IfOk result (RestsFrom mappings.now budget facts.now (choices_of answers.now)
        program.old.attempt program.new.attempt) }
    ensures between { OnOk result (program.new.reading ≡ None) }
    ensures asked { IfOk result (λ lack. is_some (question_in program.new.attempt.phase) ≡
        is_some lack) }
    ensures ended { IfOk result (λ lack. is_some (outcome_in program.new.attempt.phase) ≡
        is_none lack) }
{
    let touching = mappings.touching();
    let mut view = WatchedView::with(alloc, facts, mappings.list(), program.direction(), touching)?;
    go_with(alloc, program, &mut view, answers, mappings.all(), budget)
}

// Makes the steps of the attempt up to its rest, with a view of the repository. The view has these mappings and the update's
// direction, and sees the update's writes.
fn go_with(
    alloc: Global,
    program: &mut Attempt,
    view: &mut WatchedView<'_, IndexedFacts>,
    answers: &ChoiceList,
    mappings: &Mappings<'_>,
    budget: Budget,
) -> Result<Option<Lack>, Memory>
    requires sorted { IsRepository view.old.below }
    requires between { program.old.reading ≡ None }
    requires seen { view.old ≡ view_of mappings.now view.old.below program.old.attempt }
    requires left { program.old.attempt.steps < budget }
    ensures rests { IfOk result (RestsFrom mappings.now budget view.old.below
        (choices_of answers.now) program.old.attempt program.new.attempt) }
    ensures between { OnOk result (program.new.reading ≡ None) }
    ensures asked { IfOk result (λ lack. is_some (question_in program.new.attempt.phase) ≡
        is_some lack) }
    ensures ended { IfOk result (λ lack. is_some (outcome_in program.new.attempt.phase) ≡
        is_none lack) }
{
    'turns: loop {
        match what_next(program, answers) {
            Next::Step(choice) => {
                step(alloc, program, view, choice, mappings, budget)?;
            }
            Next::Rest(lack) => return Ok(lack),
        }
    }
}

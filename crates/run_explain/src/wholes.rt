//! An update taken whole, with the notes of its steps.
ghost use Rattle.std.specs.Prelude.{◌≡◌, ◌<◌, [], IfOk, OnOk, None, is_some, is_none};
ghost use Rattle.base_types.specs.Contents.{choices_of};
ghost use Rattle.def_chase.specs.Repository.{IsRepository};
ghost use Rattle.def_steps.specs.Attempts.{question_in, outcome_in};
ghost use Rattle.run_serial.specs.Meanings.{RestsFrom};
ghost use Rattle.run_explain.specs.Turns.{HasNotedFrom, HasTaken};

use crate::notes::NoteList;
use crate::stepping::step;
use base_limits::{Budget, Mappings};
use base_types::{ChoiceList, Memory};
use chase_eval::WatchedView;
use chase_plan::Chase;
use chase_update::{Attempt, Lack};
use lang_session::SessionUpdate;
use run_step::{Next, what_next};
use set_facts::IndexedFacts;
use std::alloc::Global;

/// An update that has come to rest, at its end or at a question at which something is lacking, with the notes of its steps.
#[derive(Drop)]
pub(crate) struct Taken {
    pub program: Attempt,
    pub lack: Option<Lack>,
    pub notes: NoteList,
}

/// The update of this number taken whole over the repository, by attempt 0.
pub(crate) fn take_whole(
    alloc: Global,
    number: u32,
    update: &SessionUpdate,
    facts: &IndexedFacts,
    chase: &Chase<'_>,
) -> Result<Taken, Memory>
    requires sorted { IsRepository facts.now }
    ensures taken { IfOk result (HasTaken chase.now.mappings.now chase.now.budget facts.now number
        update.now) }
    ensures between { IfOk result (λ taken. taken.program.reading ≡ None) }
    ensures asked { IfOk result (λ t. is_some (question_in t.program.attempt.phase) ≡
        is_some t.lack) }
    ensures ended { IfOk result (λ t. is_some (outcome_in t.program.attempt.phase) ≡
        is_none t.lack) }
{
    let budget = chase.budget;
    budget.is_within();
    let mut program = Attempt::start(alloc, &update.update, number, 0)?;
    let mut notes = NoteList::new(alloc);
    let answers = &update.answers;
    match go_on(
        alloc,
        &mut program,
        &mut notes,
        answers,
        facts,
        chase.mappings,
        budget,
    ) {
        Ok(lack) => Ok(Taken {
            program,
            lack,
            notes,
        }),
        Err(memory) => {
            drop(program);
            Err(memory)
        }
    }
}

// Makes the steps of the attempt, which has made none, over the repository, up to its rest there, and adds their notes. Returns
// what is lacking.
fn go_on(
    alloc: Global,
    program: &mut Attempt,
    notes: &mut NoteList,
    answers: &ChoiceList,
    facts: &IndexedFacts,
    mappings: &Mappings<'_>,
    budget: Budget,
) -> Result<Option<Lack>, Memory>
    requires sorted { IsRepository facts.now }
    requires between { program.old.reading ≡ None }
    requires fresh { program.old.attempt.own ≡ [] }
    requires left { program.old.attempt.steps < budget }
    ensures rests { IfOk result (RestsFrom mappings.now budget facts.now (choices_of answers.now)
        program.old.attempt program.new.attempt) }
    ensures noted { OnOk result (HasNotedFrom mappings.now budget facts.now (choices_of answers.now)
        program.old.attempt notes.old notes.new) }
    ensures between { OnOk result (program.new.reading ≡ None) }
    ensures asked { IfOk result (λ lack. is_some (question_in program.new.attempt.phase) ≡
        is_some lack) }
    ensures ended { IfOk result (λ lack. is_some (outcome_in program.new.attempt.phase) ≡
        is_none lack) }
{
    let mut view = WatchedView::new(alloc, facts, mappings.list(), program.direction())?;
    'turns: loop {
        match what_next(program, answers) {
            Next::Step(choice) => {
                step(alloc, program, &mut view, notes, choice, mappings, budget)?;
            }
            Next::Rest(lack) => return Ok(lack),
        }
    }
}

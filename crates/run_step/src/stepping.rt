//! One step of a program over the repository below it.
ghost use Rattle.std.specs.Prelude.{◌≡◌, ◌<◌, ◌≤◌, length, take, OnOk};
ghost use Rattle.std.specs.Option.{option_map, option_copied};
ghost use Rattle.def_chase.specs.Repository.{IsRepository};
ghost use Rattle.def_chase.specs.Updates.{direction_of};
ghost use Rattle.base_types.specs.Meanings.{choice_of};
ghost use Rattle.def_steps.specs.Steps.{step};
ghost use Rattle.chase_update.specs.Wishes.{wish};
ghost use Rattle.run_step.specs.Turns.{StepsBy, HasBegunBy, HasStepped, ended_in, seen_with};
ghost use Rattle.base_types.specs.Contents.{changes_of};

use base_limits::{Budget, Mappings};
use base_types::{Choice, Memory, WriteList};
use chase_eval::WatchedView;
use chase_update::{Attempt, Want};
use set_facts::IndexedFacts;
use std::alloc::Global;

/// Makes one step of the program over the repository of the view, with the answer if the program is at a question. The view has
/// these mappings and the program's direction. It sees the program's own writes, and afterwards also the writes of the step. On
/// an error, the program may be within the step.
pub fn step(
    alloc: Global,
    program: &mut Attempt,
    view: &mut WatchedView<'_, IndexedFacts>,
    choice: Option<&Choice>,
    mappings: &Mappings<'_>,
    budget: Budget,
) -> Result<(), Memory>
    requires wanted { StepsBy (wish program.old) (option_map choice_of (option_copied choice)) }
    requires rules { view.old.rules ≡ mappings.now }
    requires heading { view.old.heading ≡ direction_of program.old.attempt.operation }
    requires seen { view.old.own ≡ program.old.attempt.own }
    requires sorted { IsRepository view.old.below }
    requires left { program.old.attempt.steps < budget }
    ensures stepped { OnOk result (HasStepped mappings.now budget view.old.below
        (option_map choice_of (option_copied choice.entry)) program.old program.new) }
    ensures seen { OnOk result (view.new ≡ seen_with view.old program.new.attempt.own) }
{
    let seen = program.own().len();
    make(alloc, program, view, choice, mappings, budget)?;
    see_all(alloc, view, program.own(), seen)
}

/// Makes the step. The view still sees only the own writes from before it; `see_all` adds the writes of the step. On an error,
/// the program may be within the step.
pub fn make(
    alloc: Global,
    program: &mut Attempt,
    view: &mut WatchedView<'_, IndexedFacts>,
    choice: Option<&Choice>,
    mappings: &Mappings<'_>,
    budget: Budget,
) -> Result<(), Memory>
    requires wanted { StepsBy (wish program.old) (option_map choice_of (option_copied choice)) }
    requires rules { view.old.rules ≡ mappings.now }
    requires heading { view.old.heading ≡ direction_of program.old.attempt.operation }
    requires seen { view.old.own ≡ program.old.attempt.own }
    requires sorted { IsRepository view.old.below }
    requires left { program.old.attempt.steps < budget }
    ensures stepped { OnOk result (HasStepped mappings.now budget view.old.below
        (option_map choice_of (option_copied choice.entry)) program.old program.new) }
    ensures same { OnOk result (view.new ≡ view.old) }
{
    begin(alloc, program, choice, mappings, budget)?;
    answer_all(alloc, program, view, mappings)
}

/// Lets the view see all of the own writes, of which it has seen the first `seen`. On an error the view may see some of the
/// others.
pub fn see_all(
    alloc: Global,
    view: &mut WatchedView<'_, IndexedFacts>,
    own: &WriteList,
    seen: usize,
) -> Result<(), Memory>
    requires some { seen ≤ length own.now.items }
    requires first { take seen (changes_of own.now) ≡ view.old.own }
    ensures seen { OnOk result (view.new ≡ seen_with view.old (changes_of own.now)) }
{
    view.write_all(alloc, &own.as_slice()[seen..])
}

// Begins the step, up to its first query or its end.
fn begin(
    alloc: Global,
    program: &mut Attempt,
    choice: Option<&Choice>,
    mappings: &Mappings<'_>,
    budget: Budget,
) -> Result<(), Memory>
    requires wanted { StepsBy (wish program.old) (option_map choice_of (option_copied choice)) }
    requires left { program.old.attempt.steps < budget }
    ensures step { OnOk result (HasBegunBy mappings.now budget
        (option_map choice_of (option_copied choice.entry)) program.old program.new) }
{
    match choice {
        Some(choice) => program.choose(alloc, choice, mappings, budget),
        None => program.begin(alloc, mappings, budget),
    }
}

// Answers the queries of the present step from the view, up to the step's end.
fn answer_all(
    alloc: Global,
    program: &mut Attempt,
    view: &mut WatchedView<'_, IndexedFacts>,
    mappings: &Mappings<'_>,
) -> Result<(), Memory>
    requires rules { view.old.rules ≡ mappings.now }
    requires sorted { IsRepository view.old.below }
    ensures answered { OnOk result (program.new ≡ ended_in mappings.now view.old program.old) }
    ensures same { OnOk result (view.new ≡ view.old) }
{
    'queries: loop {
        program.pass(view.settled(), mappings);
        let Want::Read(query) = program.wants() else {
            return Ok(());
        };
        let answer = view.eval(query, alloc)?;
        let taken = program.take(alloc, &answer, mappings);
        drop(answer);
        taken?;
    }
}

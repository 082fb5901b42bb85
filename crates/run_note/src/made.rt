//! One step of a program over the repository below it, with its note.
ghost use Rattle.std.specs.Prelude.{◌≡◌, ◌<◌, None, IfOk, OnOk};
ghost use Rattle.std.specs.Option.{option_map, option_copied};
ghost use Rattle.def_chase.specs.Repository.{IsRepository};
ghost use Rattle.def_chase.specs.Updates.{direction_of};
ghost use Rattle.base_types.specs.Meanings.{choice_of};
ghost use Rattle.chase_update.specs.Wishes.{wish};
ghost use Rattle.def_provenance.specs.Notes.{note};
ghost use Rattle.run_step.specs.Turns.{StepsBy, HasStepped, seen_with};
ghost use Rattle.run_note.specs.Meanings.{note_of};
ghost use Rattle.run_note.specs.Steps.{HasChanged, step_of};

use crate::notes::Note;
use crate::ways::way;
use crate::writes::{absent, deleted, latest, present};
use base_limits::{Budget, Mappings};
use base_types::{Choice, Memory, TupleList};
use chase_eval::WatchedView;
use chase_update::Attempt;
use run_step::{make, see_all};
use set_facts::IndexedFacts;
use std::alloc::Global;

/// Makes one step of the program over the repository of the view, with the answer if the program is at a question. Returns its
/// note, whether or not it puts a tuple. The view has these mappings and the program's direction. It sees the program's own
/// writes, and afterwards also the writes of the step. On an error the program may be within the step.
pub fn noted(
    alloc: Global,
    program: &mut Attempt,
    view: &mut WatchedView<'_, IndexedFacts>,
    choice: Option<&Choice>,
    mappings: &Mappings<'_>,
    budget: Budget,
) -> Result<Note, Memory>
    requires between { program.old.reading ≡ None }
    requires wanted { StepsBy (wish program.old) (option_map choice_of (option_copied choice)) }
    requires rules { view.old.rules ≡ mappings.now }
    requires heading { view.old.heading ≡ direction_of program.old.attempt.operation }
    requires seen { view.old.own ≡ program.old.attempt.own }
    requires sorted { IsRepository view.old.below }
    requires left { program.old.attempt.steps < budget }
    ensures stepped { OnOk result (HasStepped mappings.now budget view.old.below
        (option_map choice_of (option_copied choice.entry)) program.old program.new) }
    ensures seen { OnOk result (view.new ≡ seen_with view.old program.new.attempt.own) }
    ensures note { IfOk result (λ made. note_of made ≡ note (step_of mappings.now view.old.below
        program.old.attempt (option_map choice_of (option_copied choice.entry)))) }
{
    let way = way(alloc, program, view, choice, mappings)?;
    let changed = carry_out(alloc, program, view, choice, mappings, budget)?;
    Ok(Note {
        update: program.number(),
        step: program.steps(),
        way,
        deleted: changed.deleted,
        puts: changed.puts,
    })
}

// What a step deleted, and what it put.
#[derive(Drop)]
struct Changed {
    deleted: TupleList,
    puts: TupleList,
}

// Makes the step, and returns what it deleted and put.
fn carry_out(
    alloc: Global,
    program: &mut Attempt,
    view: &mut WatchedView<'_, IndexedFacts>,
    choice: Option<&Choice>,
    mappings: &Mappings<'_>,
    budget: Budget,
) -> Result<Changed, Memory>
    requires wanted { StepsBy (wish program.old) (option_map choice_of (option_copied choice)) }
    requires rules { view.old.rules ≡ mappings.now }
    requires heading { view.old.heading ≡ direction_of program.old.attempt.operation }
    requires seen { view.old.own ≡ program.old.attempt.own }
    requires sorted { IsRepository view.old.below }
    requires left { program.old.attempt.steps < budget }
    ensures stepped { OnOk result (HasStepped mappings.now budget view.old.below
        (option_map choice_of (option_copied choice.entry)) program.old program.new) }
    ensures seen { OnOk result (view.new ≡ seen_with view.old program.new.attempt.own) }
    ensures changed { IfOk result (HasChanged (step_of mappings.now view.old.below
        program.old.attempt (option_map choice_of (option_copied choice.entry)))) }
{
    let seen = program.own().len();
    make(alloc, program, view, choice, mappings, budget)?;
    let fresh = absent(alloc, view, latest(program.own(), seen))?;
    see_all(alloc, view, program.own(), seen)?;
    let puts = present(alloc, view, fresh)?;
    let deleted = deleted(alloc, latest(program.own(), seen))?;
    Ok(Changed { deleted, puts })
}

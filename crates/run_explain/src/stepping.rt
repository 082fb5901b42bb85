//! One step of a program, with a note of what it puts.
ghost use Rattle.std.specs.Prelude.{◌≡◌, ◌<◌, None, OnOk};
ghost use Rattle.std.specs.Option.{option_map, option_copied};
ghost use Rattle.def_chase.specs.Repository.{IsRepository};
ghost use Rattle.def_chase.specs.Updates.{direction_of};
ghost use Rattle.base_types.specs.Meanings.{choice_of};
ghost use Rattle.chase_update.specs.Wishes.{wish};
ghost use Rattle.run_step.specs.Turns.{StepsBy, HasStepped, seen_with};
ghost use Rattle.run_explain.specs.NoteMeanings.{HasNoted};

use crate::notes::{NoteList, add};
use base_limits::{Budget, Mappings};
use base_types::{Choice, Memory};
use chase_eval::WatchedView;
use chase_update::Attempt;
use run_note::noted;
use set_facts::IndexedFacts;
use std::alloc::Global;

/// Makes one step of the program over the repository of the view, with the answer if the program is at a question, and notes
/// what it puts. The view has these mappings and the program's direction. It sees the program's own writes, and afterwards also
/// the writes of the step. On an error the program may be within the step.
pub(crate) fn step(
    alloc: Global,
    program: &mut Attempt,
    view: &mut WatchedView<'_, IndexedFacts>,
    notes: &mut NoteList,
    choice: Option<&Choice>,
    mappings: &Mappings<'_>,
    budget: Budget,
) -> Result<(), Memory>
    requires between { program.old.reading ≡ None }
    requires wanted { StepsBy (wish program.old) (option_map choice_of (option_copied choice)) }
    requires rules { view.old.rules ≡ mappings.now }
    requires heading { view.old.heading ≡ direction_of program.old.attempt.operation }
    requires seen { view.old.own ≡ program.old.attempt.own }
    requires sorted { IsRepository view.old.below }
    requires left { program.old.attempt.steps < budget }
    ensures stepped { OnOk result (HasStepped mappings.now budget view.old.below
        (option_map choice_of (option_copied choice.entry)) program.old program.new) }
    ensures seen { OnOk result (view.new ≡ seen_with view.old program.new.attempt.own) }
    ensures noted { OnOk result (HasNoted mappings.now view.old.below
        (option_map choice_of (option_copied choice.entry)) program.old.attempt notes.old
        notes.new) }
{
    let note = noted(alloc, program, view, choice, mappings, budget)?;
    add(notes, note)
}

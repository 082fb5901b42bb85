//! The way of the step that a program takes next.
ghost use Rattle.std.specs.Prelude.{◌≡◌, None, IfOk};
ghost use Rattle.std.specs.Option.{option_map, option_copied};
ghost use Rattle.def_chase.specs.Queries.{holds_null};
ghost use Rattle.def_chase.specs.Repository.{apply};
ghost use Rattle.base_types.specs.Meanings.{choice_of, datum_of, null_of, operation_of};
ghost use Rattle.chase_repair.specs.Bound.{bound_in};
ghost use Rattle.chase_repair.specs.BoundMeanings.{bound_of};
ghost use Rattle.chase_update.specs.Wishes.{wish};
ghost use Rattle.def_provenance.specs.Puts.{Generates, image_of, stands_for as stands_for_def, way_in, way_of_start as way_of_start_def};
ghost use Rattle.chase_query.specs.Meanings.{reply_of};
ghost use Rattle.run_step.specs.Turns.{StepsBy};
ghost use Rattle.run_note.specs.Meanings.{way_of};
ghost use Rattle.run_note.specs.Steps.{seen_in, way_of_bound, holders_in};
ghost use Rattle.def_steps.specs.Rewriting.{standing_for};
ghost use Rattle.def_steps.specs.Steps.{tuples_of};

use crate::notes::{Rewriting, Way};
use base_limits::Mappings;
use base_types::{Choice, Memory, Null, Operation, TryCopy, TupleList, Value};
use chase_eval::WatchedView;
use chase_query::{Query, Reply};
use chase_repair::{Bound, image};
use chase_update::{Attempt, standing_for};
use set_facts::IndexedFacts;
use std::alloc::Global;

/// The way of the program's next step over what is seen in the view, with the answer if the program is at a question.
pub(crate) fn way(
    alloc: Global,
    program: &Attempt,
    view: &mut WatchedView<'_, IndexedFacts>,
    choice: Option<&Choice>,
    mappings: &Mappings<'_>,
) -> Result<Way, Memory>
    requires between { program.now.reading ≡ None }
    requires wanted { StepsBy (wish program.now) (option_map choice_of (option_copied choice)) }
    ensures way { IfOk result (λ way. way_of way ≡
        way_in mappings.now (seen_in view.old) program.now.attempt.operation
        (option_map choice_of (option_copied choice.entry)) program.now.attempt.phase) }
    ensures same { view.new ≡ view.old }
{
    if program.is_at_start() {
        return way_of_start(alloc, view, program.operation());
    }
    match program.bound() {
        Some(bound) => way_of_repair(alloc, program, bound, choice, mappings),
        None => Ok(Way::Inserts),
    }
}

// The way of the first step of an operation over what is seen in the view.
fn way_of_start(
    alloc: Global,
    view: &mut WatchedView<'_, IndexedFacts>,
    operation: &Operation,
) -> Result<Way, Memory>
    ensures way { IfOk result (λ way. way_of way ≡
        way_of_start_def (seen_in view.old) (operation_of operation.now)) }
    ensures same { view.new ≡ view.old }
{
    match operation {
        Operation::Replace(null, value) => {
            let from = stands(alloc, view, *null)?;
            let to = stands_for(alloc, view, value)?;
            Ok(Way::Rewrites(Rewriting::Replaces { from, to }))
        }
        Operation::Insert(_) => Ok(Way::Inserts),
        Operation::Delete(_) => Ok(Way::Inserts),
        Operation::Enact(_) => Ok(Way::Inserts),
    }
}

// What a value of an operation stands for in the view.
fn stands_for(
    alloc: Global,
    view: &mut WatchedView<'_, IndexedFacts>,
    value: &Value,
) -> Result<Value, Memory>
    ensures value { IfOk result (λ known. datum_of known ≡
        stands_for_def (seen_in view.old) (datum_of value.now)) }
    ensures same { view.new ≡ view.old }
{
    match value {
        Value::Null(null) => stands(alloc, view, *null),
        Value::Int(_) => value.copy(alloc),
        Value::Word(_) => value.copy(alloc),
    }
}

// What a named null stands for in the view.
fn stands(
    alloc: Global,
    view: &mut WatchedView<'_, IndexedFacts>,
    name: Null,
) -> Result<Value, Memory>
    ensures value { IfOk result (λ known. datum_of known ≡
        standing_for (null_of name) (holders_in (seen_in view.old) (null_of name))) }
    ensures same { view.new ≡ view.old }
{
    let answer = view.eval(&Query::Occurs(name.outer_name()), alloc)?;
    stands_by(alloc, name, &answer)
}

// What a named null stands for, by a reply with the tuples that hold it.
fn stands_by(alloc: Global, name: Null, answer: &Reply) -> Result<Value, Memory>
    ensures value { IfOk result (λ known. datum_of known ≡
        standing_for (null_of name) (tuples_of (reply_of answer.now))) }
{
    match answer {
        Reply::Tuples(tuples) => standing_for(alloc, name, tuples),
        Reply::Yes => Ok(Value::Int(0)),
        Reply::No => Ok(Value::Int(0)),
        Reply::Image(_) => Ok(Value::Int(0)),
        Reply::Nothing => Ok(Value::Int(0)),
    }
}

// The way of a step of the present repair, with the answer if the program is at a question.
fn way_of_repair(
    alloc: Global,
    program: &Attempt,
    bound: Bound<'_>,
    choice: Option<&Choice>,
    mappings: &Mappings<'_>,
) -> Result<Way, Memory>
    requires wanted { StepsBy (wish program.now) (option_map choice_of (option_copied choice)) }
    ensures way { IfOk result (λ way. way_of way ≡
        way_of_bound mappings.now program.now.attempt.phase (bound_of bound.entry)
        (option_map choice_of (option_copied choice.entry))) }
{
    match choice {
        Some(Choice::Unify(form)) => {
            let unifier = program.unifier_with(alloc, form)?;
            Ok(Way::Rewrites(Rewriting::Unifies(unifier)))
        }
        Some(Choice::Expand) => generates(alloc, bound, mappings),
        Some(Choice::Delete(_)) => generates(alloc, bound, mappings),
        None => generates(alloc, bound, mappings),
    }
}

// The way of a step that generates tuples, with the image of the violation under repair.
fn generates(alloc: Global, bound: Bound<'_>, mappings: &Mappings<'_>) -> Result<Way, Memory>
    ensures way { IfOk result (λ way. way_of way ≡ Generates (bound_of bound.entry).mapping
        (image_of mappings.now (bound_of bound.entry).mapping (bound_of bound.entry).values)) }
{
    let image = match mappings.get(bound.mapping as usize) {
        Some(mapping) => image(alloc, bound.values, &mapping.left)?,
        None => TupleList::new(alloc),
    };
    Ok(Way::Generates {
        mapping: bound.mapping,
        image,
    })
}

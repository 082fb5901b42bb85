//! The step of the answer to a question.
ghost use Rattle.std.specs.Prelude.{◌≡◌, ◌<◌, ◌++◌, length, map, Box, IfOk, OnOk, OnErr};
ghost use Rattle.std.specs.Global.{Global};
ghost use Rattle.def_chase.specs.Repository.{Delete};
ghost use Rattle.base_types.specs.Contents.{changes_of, facts_of};
ghost use Rattle.base_types.specs.Meanings.{choice_of, null_of};
ghost use Rattle.chase_question.specs.declared.questions.Question.{Question as QuestionOfProgram};
ghost use Rattle.def_steps.specs.Questions.{named};
ghost use Rattle.chase_repair.specs.Stands.{wanted, TakesChoice};
ghost use Rattle.chase_repair.specs.Stages.{gathering_of, repairing_of, AsksFirst, IsSound, SameRepair};
ghost use Rattle.chase_repair.specs.Transitions.{AsksAs, HasChosen};

use crate::boxing::boxed;
use crate::generating::go_on;
use crate::planning::plan;
use crate::rewriting::deletions;
use crate::stages::{Gathering, Generation, Stage};
use crate::unifying::unify;
use crate::wants::Progress;
use crate::writes::{append, insert};
use base_limits::Mappings;
use base_types::{Choice, List, Memory, Null, Sub, TupleList, WriteList};
use chase_query::Query;
use chase_question::{Question, named_tuples};
use std::alloc::Global;
use std::mem;

/// Makes the step of the answer, which fits the question of this stage, up to its first query or its end. A step that ends adds
/// its writes to the end of the own ones. If it is refused, the repair and the own writes are unchanged.
pub(crate) fn chosen(
    alloc: Global,
    generation: &mut Generation,
    stage: &mut Stage,
    own: &mut WriteList,
    choice: &Choice,
    mappings: &Mappings<'_>,
) -> Result<Progress, Memory>
    requires fits { IsSound generation.old stage.old }
    requires choice { TakesChoice
        (wanted (repairing_of generation.old stage.old)) (choice_of choice.now) }
    ensures step { IfOk result (HasChosen mappings.now choice.now
        own.old (repairing_of generation.old stage.old)
        own.new (repairing_of generation.new stage.new)) }
    ensures asks { IfOk result (AsksAs (repairing_of generation.new stage.new)) }
    ensures sound { IsSound generation.new stage.new }
    ensures err { OnErr result (SameRepair generation.old stage.old generation.new stage.new) }
    ensures own { OnErr result (own.new.items ≡ own.old.items) }
{
    match &*stage {
        Stage::Waiting(question) => match (&**question, choice) {
            (Question::Positive { tuple, .. }, Choice::Expand) => {
                insert(alloc, own, tuple)?;
                *stage = go_on(generation, mappings);
                Ok(Progress::Ends)
            }
            (
                Question::Positive {
                    tuple,
                    candidates,
                    ..
                },
                Choice::Unify(form),
            ) => {
                let (sub, nulls) = plan(alloc, tuple, candidates, form)?;
                if nulls.is_empty() {
                    let found = TupleList::new(alloc);
                    *stage = unify(alloc, generation, own, &sub, &found, mappings)?;
                    Ok(Progress::Ends)
                } else {
                    let gathering = boxed(alloc, first_asked(alloc, sub, nulls))?;
                    *stage = unifying(mem::replace(stage, Stage::Repaired), gathering);
                    Ok(Progress::Asks)
                }
            }
            (Question::Negative { tuples, .. }, Choice::Delete(forms)) => {
                delete(alloc, own, tuples, forms)?;
                *stage = Stage::Repaired;
                Ok(Progress::Ends)
            }
            _ => unreachable!(),
        },
        _ => unreachable!(),
    }
}

// The step of `Unify` at its first query: the first of the nulls that the unifier moves is asked for.
fn first_asked(alloc: Global, sub: Sub, nulls: Vec<Null>) -> Gathering
    requires { 0 < length nulls.items }
    ensures { AsksFirst sub (map null_of nulls.items) (gathering_of result) }
{
    let mut later = nulls;
    let null = later.remove(0);
    Gathering {
        sub,
        query: Query::Occurs(null.outer_name()),
        later,
        found: List::new(alloc),
    }
}

// The stage within the step of `Unify`, after the one that waits at the question.
fn unifying(stage: Stage, gathering: Box<Gathering>) -> Stage
    ensures { (q : Box QuestionOfProgram Global) → stage ≡ Stage.Waiting q →
        result ≡ Stage.Unifying q gathering }
{
    match stage {
        Stage::Waiting(question) => Stage::Unifying(question, gathering),
        other => other,
    }
}

// Deletes the tuples whose outer forms are given, by writes at the end of the own ones. If it is refused, the own writes are
// unchanged.
fn delete(
    alloc: Global,
    own: &mut WriteList,
    tuples: &TupleList,
    forms: &TupleList,
) -> Result<(), Memory>
    ensures ok { OnOk result (
        changes_of own.new ≡ changes_of own.old ++
        map Delete (named (facts_of tuples.now) (facts_of forms.now))) }
    ensures err { OnErr result (own.new.items ≡ own.old.items) }
{
    let writes = deletions(alloc, named_tuples(alloc, tuples, forms)?)?;
    append(alloc, own, writes)
}

//! What a value has become by the steps so far.
ghost use Rattle.std.specs.Prelude.{◌≡◌, map, IfOk};
ghost use Rattle.base_types.specs.Contents.{data_of};
ghost use Rattle.base_types.specs.Maps.{images_of, moved_by};
ghost use Rattle.base_types.specs.Meanings.{datum_of, fact_of};
ghost use Rattle.def_chase.specs.Values.{under};
ghost use Rattle.def_steps.specs.Rewriting.{replacing};
ghost use Rattle.run_note.specs.Meanings.{rewriting_of, way_of};
ghost use Rattle.ws_run.specs.Moves.{moved_over, moved_way, step_way, ways_of};

use crate::threads::{Step, Thread};
use base_types::{Memory, Sub, TryCopy, Tuple, Value, ValueList};
use run_note::{Rewriting, Way};
use std::alloc::Global;

/// What the value has become by these steps.
#[tactic(auto, using(crate::proofs::Followed::followed_on, crate::proofs::Followed::followed_all))]
pub fn follow(alloc: Global, steps: &[Step], value: &Value) -> Result<Value, Memory>
    ensures value { IfOk result (λ now. datum_of now ≡
        moved_over (ways_of steps.now) (datum_of value.now)) }
{
    let mut now = value.copy(alloc)?;
    for step in steps {
        now = follow_one(alloc, step, &now)?;
    }
    Ok(now)
}

// What the value becomes by this step.
fn follow_one(alloc: Global, step: &Step, value: &Value) -> Result<Value, Memory>
    ensures value { IfOk result (λ now. datum_of now ≡
        moved_way (step_way step.now) (datum_of value.now)) }
{
    follow_way(alloc, &step.note.way, value)
}

fn follow_way(alloc: Global, way: &Way, value: &Value) -> Result<Value, Memory>
    ensures value { IfOk result (λ now. datum_of now ≡
        moved_way (way_of way.now) (datum_of value.now)) }
{
    match way {
        Way::Rewrites(rewriting) => rewritten(alloc, rewriting, value),
        Way::Inserts => value.copy(alloc),
        Way::Generates { .. } => value.copy(alloc),
    }
}

fn rewritten(alloc: Global, rewriting: &Rewriting, value: &Value) -> Result<Value, Memory>
    ensures value { IfOk result (λ now. datum_of now ≡
        rewriting_of rewriting.now (datum_of value.now)) }
{
    match rewriting {
        Rewriting::Replaces { from, to } => replaced(alloc, from, to, value),
        Rewriting::Unifies(unifier) => unified(alloc, unifier, value),
    }
}

// The value, or `to` if it is `from`.
fn replaced(alloc: Global, from: &Value, to: &Value, value: &Value) -> Result<Value, Memory>
    ensures value { IfOk result (λ now. datum_of now ≡
        replacing (datum_of from.now) (datum_of to.now) (datum_of value.now)) }
{
    if *value == *from {
        return to.copy(alloc);
    }
    value.copy(alloc)
}

// The image of the value if it is a null that has one, and else the value.
fn unified(alloc: Global, unifier: &Sub, value: &Value) -> Result<Value, Memory>
    ensures value { IfOk result (λ now. datum_of now ≡
        moved_by (images_of unifier.now) (datum_of value.now)) }
{
    match value {
        Value::Null(null) => match unifier.get(*null) {
            Some(image) => image.copy(alloc),
            None => value.copy(alloc),
        },
        Value::Int(_) => value.copy(alloc),
        Value::Word(_) => value.copy(alloc),
    }
}

/// What the tuple has become by the run so far.
pub(crate) fn followed(alloc: Global, thread: &Thread, tuple: &Tuple) -> Result<Tuple, Memory>
    ensures tuple { IfOk result (λ now. fact_of now ≡
        under (moved_over (ways_of thread.now.steps.items)) (fact_of tuple.now)) }
{
    let values = follow_all(alloc, thread.steps.as_slice(), tuple.values.as_slice())?;
    Tuple::new(alloc, tuple.relation, values)
}

// What the values have become by these steps.
fn follow_all(alloc: Global, steps: &[Step], values: &[Value]) -> Result<ValueList, Memory>
    ensures values { IfOk result (λ now. data_of now ≡
        map (moved_over (ways_of steps.now)) (map datum_of values.now)) }
{
    let mut now = ValueList::new(alloc);
    for value in values {
        now.push(follow(alloc, steps, value)?)?;
    }
    Ok(now)
}

//! One update run over what stands.
ghost use Rattle.ws_ground.specs.Trails.{HasGrown};
ghost use Rattle.ws_state.specs.Stands.{HasRun};

use crate::active::{active_for, fixed_mapping, within};
use crate::outcomes::{Tried, done_by, done_with, done_without_ops, halted, left};
use crate::worlds::{World, gone_of};
use base_limits::Budget;
use base_types::{
    ChoiceList, MappingList, Memory, Operation, TryCopy, TupleList, Value, ValueList,
};
use chase_violation::holds;
use std::alloc::Global;
use ws_lines::{Deed, GivenList, Update};
use ws_names::{Names, Places};
use ws_run::{Ground, InForce, Op, OpList, Reason, Setting, Thread, image_for, run_deed};

/// An update to run, by its place among the held updates, with its answers.
#[derive(Clone, Copy)]
pub(crate) struct Turn<'a> {
    pub place: usize,
    pub update: &'a Update,
    pub answers: &'a GivenList,
}

/// Runs the update over what stands. If it is not done, the caller must take back what its ops did.
#[tactic(auto, using(crate::proofs::Staying::none_run))]
pub(crate) fn run_turn(
    alloc: Global,
    declared: &MappingList,
    world: &mut World,
    turn: Turn<'_>,
    places: Places,
) -> Result<Tried, Memory>
    ensures ran { HasRun world.old world.new }
{
    let deed = &turn.update.deed;
    if let Some(mapping) = gone_of(&world.gone, deed) {
        return Ok(left(Reason::Gone(mapping), places));
    }
    match deed {
        Deed::Force(mapping) => run_force(alloc, declared, world, turn, *mapping, places),
        Deed::Drop(_) => Ok(done_without_ops(alloc, turn.place, places)),
        _ => run_ops(alloc, declared, world, turn, places),
    }
}

// Puts a mapping in force, as an op of its own, if it has no violation.
#[tactic(auto, using(crate::proofs::Staying::none_run, ws_ground::proofs::Trailing::none_made))]
fn run_force(
    alloc: Global,
    declared: &MappingList,
    world: &mut World,
    turn: Turn<'_>,
    mapping: u16,
    places: Places,
) -> Result<Tried, Memory>
    ensures ran { HasRun world.old world.new }
{
    if world.is_in_force(mapping) {
        return Ok(done_without_ops(alloc, turn.place, places));
    }
    if let Some(declared) = declared.get(mapping as usize) {
        if !holds(alloc, declared, &world.ground.facts)? {
            return Ok(left(Reason::Violated(mapping), places));
        }
    }
    let Some(number) = world.ground.last.checked_add(1) else {
        return Err(Memory);
    };
    world.ground.last = number;
    enacted(alloc, turn.place, number, mapping, places)
}

// A run whose only op puts the mapping in force.
fn enacted(
    alloc: Global,
    place: usize,
    number: u32,
    mapping: u16,
    places: Places,
) -> Result<Tried, Memory> {
    let mut ops = OpList::new(alloc);
    ops.push(Op {
        number,
        operation: Operation::Enact(mapping),
        choices: ChoiceList::new(alloc),
        drawn: 0,
    })?;
    Ok(done_by(alloc, place, ops, places))
}

// Runs the ops of the update over what stands.
#[tactic(auto, using(crate::proofs::Staying::none_run))]
fn run_ops(
    alloc: Global,
    declared: &MappingList,
    world: &mut World,
    turn: Turn<'_>,
    places: Places,
) -> Result<Tried, Memory>
    ensures ran { HasRun world.old world.new }
{
    let deed = &turn.update.deed;
    let active = active_for(alloc, declared, world.in_force.as_slice(), deed)?;
    let Some(mappings) = within(&active.mappings) else {
        return Err(Memory);
    };
    let in_force = InForce::of(alloc, mappings)?;
    let setting = Setting {
        number: turn.update.number,
        budget: budget_for(turn.update.steps),
        in_force: &in_force,
        sources: &active.sources,
        fixed: fixed_mapping(declared, deed),
    };
    run_over(alloc, &setting, &mut world.ground, turn, places)
}

// The greatest budget.
const MOST_STEPS: u32 = 1_000_001;

// A budget of one step more than `steps`, at most the greatest.
fn budget_for(steps: u32) -> Budget {
    if steps < MOST_STEPS {
        return Budget::new(steps + 1);
    }
    Budget::new(MOST_STEPS)
}

// Runs the ops of the update over the ground.
#[tactic(auto, using(ws_ground::proofs::Trailing::none_made))]
fn run_over(
    alloc: Global,
    setting: &Setting<'_>,
    ground: &mut Ground,
    turn: Turn<'_>,
    places: Places,
) -> Result<Tried, Memory>
    ensures grown { HasGrown ground.old ground.new }
{
    let deed = &turn.update.deed;
    let image = image_of(alloc, setting, ground, deed)?;
    let mut thread = Thread::new(alloc, places);
    match run_deed(alloc, setting, ground, &mut thread, turn.answers, deed) {
        Ok(()) => done_with(alloc, turn, thread, image),
        Err(halt) => {
            drop(image);
            halted(alloc, thread, halt)
        }
    }
}

// The image of the mapping's left side that a repair is for; empty if the update is no repair, or if an unknown is not there.
fn image_of(
    alloc: Global,
    setting: &Setting<'_>,
    ground: &Ground,
    deed: &Deed,
) -> Result<TupleList, Memory> {
    let (Some(mapping), Deed::Fix(_, values)) = (setting.fixed, deed) else {
        return Ok(TupleList::new(alloc));
    };
    match inner_values(alloc, &ground.names, values)? {
        Some(values) => image_for(alloc, mapping, values.as_slice(), &ground.facts),
        None => Ok(TupleList::new(alloc)),
    }
}

// The values with the nulls that their names stand for; None if one of them is not there.
fn inner_values(
    alloc: Global,
    names: &Names,
    values: &ValueList,
) -> Result<Option<ValueList>, Memory> {
    let mut inner = ValueList::new(alloc);
    for value in values.as_slice() {
        let value = match value {
            Value::Null(name) => match names.null_called(*name) {
                Some(null) => Value::Null(null),
                None => return Ok(None),
            },
            _ => value.copy(alloc)?,
        };
        inner.push(value)?;
    }
    Ok(Some(inner))
}

//! One op taken whole over the ground.
ghost use Rattle.ws_ground.specs.Trails.{HasGrown};

use crate::going::go;
use crate::halts::Halt;
use crate::settings::Setting;
use crate::threads::{Op, Thread};
use base_types::{ChoiceList, Memory, Name, Operation, Tuple, Update, Write};
use chase_update::Attempt;
use set_facts::IndexedFacts;
use std::alloc::Global;
use ws_ground::{Ground, WANT};
use ws_lines::GivenList;
use ws_names::Names;

/// A run: its setting, its answers, and where its trail begins.
#[derive(Clone, Copy)]
pub(crate) struct Run<'a> {
    pub setting: &'a Setting<'a>,
    pub answers: &'a GivenList,
    pub first: usize,
}

/// What an op works on: its run, the tuples, and what the ops before it wrote.
#[derive(Clone, Copy)]
pub(crate) struct Over<'a> {
    pub run: Run<'a>,
    pub facts: &'a IndexedFacts,
    pub made: &'a [Write],
}

/// Takes the operation whole as the next op of the ground, with the answers that the run has not taken yet. If it halts, the
/// tuples and the number of the last op are as before.
#[tactic(auto, using(ws_ground::proofs::Trailing::none_made))]
pub(crate) fn take_op(
    alloc: Global,
    run: Run<'_>,
    ground: &mut Ground,
    thread: &mut Thread,
    operation: Operation,
) -> Result<(), Halt>
    ensures grown { HasGrown ground.old ground.new }
{
    let Some(number) = ground.last.checked_add(1) else {
        return Err(Halt::Memory);
    };
    let update = Update {
        label: Name::new(alloc),
        curator: Name::new(alloc),
        operation,
    };
    let mut program = Attempt::start(alloc, &update, number, 0)?;
    let mut choices = ChoiceList::new(alloc);
    let over = Over {
        run,
        facts: &ground.facts,
        made: ground.trail.as_slice().get(run.first..).unwrap_or(&[]),
    };
    go(
        alloc,
        over,
        &mut ground.names,
        thread,
        &mut choices,
        &mut program,
    )?;
    let drawn = program.nulls();
    keep_named(alloc, &ground.names, thread, program.own().as_slice())?;
    ground.make(program.into_own(alloc)?)?;
    ground.last = number;
    thread.ops.push(Op {
        number,
        operation: update.operation,
        choices,
        drawn,
    })?;
    Ok(())
}

// Keeps the op's writes by names, except in hidden relations.
fn keep_named(
    alloc: Global,
    names: &Names,
    thread: &mut Thread,
    writes: &[Write],
) -> Result<(), Memory> {
    for write in writes {
        if tuple_of(write).relation < WANT {
            thread.writes.push(named(alloc, names, write)?)?;
        }
    }
    Ok(())
}

fn tuple_of(write: &Write) -> &Tuple {
    match write {
        Write::Insert(tuple) => tuple,
        Write::Delete(tuple) => tuple,
    }
}

fn named(alloc: Global, names: &Names, write: &Write) -> Result<Write, Memory> {
    match write {
        Write::Insert(tuple) => Ok(Write::Insert(names.tuple(alloc, tuple)?)),
        Write::Delete(tuple) => Ok(Write::Delete(names.tuple(alloc, tuple)?)),
    }
}

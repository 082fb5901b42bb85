//! The ops of an update, one after the other.
ghost use Rattle.ws_ground.specs.Trails.{HasGrown};

use crate::following::{follow, followed};
use crate::halts::Halt;
use crate::ops::{Run, take_op};
use crate::resolving::{drawn_as, found, found_all, found_null, found_spelled, found_tuples};
use crate::settings::Setting;
use crate::threads::Thread;
use base_types::{Facts, Memory, Null, Operation, Tuple, TupleList, Value};
use std::alloc::Global;
use ws_ground::{Ground, found_as, news_of, to_fix, wanted};
use ws_lines::{Deed, GivenList, SpelledTuple};

/// Runs the ops of an update over the ground, one after the other, each whole, with these answers. After a halt, the caller must
/// take back the ops that were done. An update that puts a mapping in force or takes one away has no ops.
#[tactic(auto, using(ws_ground::proofs::Trailing::none_made))]
pub fn run_deed(
    alloc: Global,
    setting: &Setting<'_>,
    ground: &mut Ground,
    thread: &mut Thread,
    answers: &GivenList,
    deed: &Deed,
) -> Result<(), Halt>
    ensures grown { HasGrown ground.old ground.new }
{
    let run = Run {
        setting,
        answers,
        first: ground.trail.len(),
    };
    match deed {
        Deed::Insert(tuples) => {
            insert_all(alloc, run, ground, thread, tuples.as_slice(), news_of(deed))
        }
        Deed::Delete(tuples) => {
            let tuples = found_tuples(alloc, ground, tuples.as_slice())?;
            remove_all(alloc, run, ground, thread, &tuples)
        }
        Deed::Fill(name, value) => fill(alloc, run, ground, thread, *name, value),
        Deed::Swap(old, new) => swap(alloc, run, ground, thread, old, new, news_of(deed)),
        Deed::Fix(_, values) => fix(alloc, run, ground, thread, values.as_slice()),
        Deed::Force(_) => Ok(()),
        Deed::Drop(_) => Ok(()),
    }
}

#[tactic(auto, using(ws_ground::proofs::Trailing::none_made, ws_ground::proofs::Trailing::more_made))]
fn insert_all(
    alloc: Global,
    run: Run<'_>,
    ground: &mut Ground,
    thread: &mut Thread,
    tuples: &[SpelledTuple],
    news: u32,
) -> Result<(), Halt>
    ensures grown { HasGrown ground.old ground.new }
{
    let first = ground.last;
    draw(alloc, run, ground, thread, news)?;
    let tuples = found_spelled(alloc, ground, first, tuples)?;
    add_all(alloc, run, ground, thread, &tuples)?;
    settle(alloc, run, ground, thread, first, news)
}

// Inserts the new tuple, and then deletes the old one if it is still there.
#[tactic(auto, using(ws_ground::proofs::Trailing::none_made, ws_ground::proofs::Trailing::more_made))]
fn swap(
    alloc: Global,
    run: Run<'_>,
    ground: &mut Ground,
    thread: &mut Thread,
    old: &Tuple,
    new: &SpelledTuple,
    news: u32,
) -> Result<(), Halt>
    ensures grown { HasGrown ground.old ground.new }
{
    let first = ground.last;
    draw(alloc, run, ground, thread, news)?;
    let comes = found_spelled(alloc, ground, first, std::slice::from_ref(new))?;
    let goes = found_tuples(alloc, ground, std::slice::from_ref(old))?;
    add_all(alloc, run, ground, thread, &comes)?;
    remove_all(alloc, run, ground, thread, &goes)?;
    settle(alloc, run, ground, thread, first, news)
}

// Draws `news` new unknowns.
#[tactic(auto, using(ws_ground::proofs::Trailing::none_made, ws_ground::proofs::Trailing::more_made))]
fn draw(
    alloc: Global,
    run: Run<'_>,
    ground: &mut Ground,
    thread: &mut Thread,
    news: u32,
) -> Result<(), Halt>
    ensures grown { HasGrown ground.old ground.new }
{
    for number in 0..news {
        let tuple = wanted(alloc, number + 1)?;
        take_op(alloc, run, ground, thread, Operation::Insert(tuple))?;
    }
    Ok(())
}

// Deletes the hidden tuples that say what the new unknowns are.
#[tactic(auto, using(ws_ground::proofs::Trailing::none_made, ws_ground::proofs::Trailing::more_made))]
fn settle(
    alloc: Global,
    run: Run<'_>,
    ground: &mut Ground,
    thread: &mut Thread,
    first: u32,
    news: u32,
) -> Result<(), Halt>
    ensures grown { HasGrown ground.old ground.new }
{
    for number in 0..news {
        let tuple = settling(alloc, thread, first, number + 1)?;
        take_op(alloc, run, ground, thread, Operation::Delete(tuple))?;
    }
    Ok(())
}

// The hidden tuple that says what the new unknown of this number is by now.
fn settling(alloc: Global, thread: &Thread, first: u32, number: u32) -> Result<Tuple, Memory> {
    let null = Value::Null(drawn_as(first, number)?);
    let now = follow(alloc, thread.steps.as_slice(), &null)?;
    found_as(alloc, number, now)
}

#[tactic(auto, using(ws_ground::proofs::Trailing::none_made, ws_ground::proofs::Trailing::more_made))]
fn add_all(
    alloc: Global,
    run: Run<'_>,
    ground: &mut Ground,
    thread: &mut Thread,
    tuples: &TupleList,
) -> Result<(), Halt>
    ensures grown { HasGrown ground.old ground.new }
{
    for tuple in tuples.as_slice() {
        let tuple = followed(alloc, thread, tuple)?;
        take_op(alloc, run, ground, thread, Operation::Insert(tuple))?;
    }
    Ok(())
}

// Deletes the tuples that are still there when their turn comes.
#[tactic(auto, using(ws_ground::proofs::Trailing::none_made, ws_ground::proofs::Trailing::more_made))]
fn remove_all(
    alloc: Global,
    run: Run<'_>,
    ground: &mut Ground,
    thread: &mut Thread,
    tuples: &TupleList,
) -> Result<(), Halt>
    ensures grown { HasGrown ground.old ground.new }
{
    for tuple in tuples.as_slice() {
        let tuple = followed(alloc, thread, tuple)?;
        if ground.facts.contains(&tuple) {
            take_op(alloc, run, ground, thread, Operation::Delete(tuple))?;
        }
    }
    Ok(())
}

#[tactic(auto, using(ws_ground::proofs::Trailing::none_made))]
fn fill(
    alloc: Global,
    run: Run<'_>,
    ground: &mut Ground,
    thread: &mut Thread,
    name: Null,
    value: &Value,
) -> Result<(), Halt>
    ensures grown { HasGrown ground.old ground.new }
{
    let null = found_null(ground, name)?;
    let value = found(alloc, ground, value)?;
    take_op(alloc, run, ground, thread, Operation::Replace(null, value))
}

// Inserts the hidden tuple that asks for the repair, and deletes it in the form that the repair gave it.
#[tactic(auto, using(ws_ground::proofs::Trailing::none_made, ws_ground::proofs::Trailing::more_made))]
fn fix(
    alloc: Global,
    run: Run<'_>,
    ground: &mut Ground,
    thread: &mut Thread,
    values: &[Value],
) -> Result<(), Halt>
    ensures grown { HasGrown ground.old ground.new }
{
    let values = found_all(alloc, ground, values)?;
    let tuple = to_fix(alloc, values)?;
    take_op(
        alloc,
        run,
        ground,
        thread,
        Operation::Insert(tuple.share()?),
    )?;
    let now = followed(alloc, thread, &tuple)?;
    take_op(alloc, run, ground, thread, Operation::Delete(now))
}

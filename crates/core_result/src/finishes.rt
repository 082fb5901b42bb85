//! How the committed updates ended.
ghost use Rattle.std.specs.Prelude.{◌≡◌, IfOk, OnOk};
ghost use Rattle.core_queue.specs.Programs.{IsBetween};
ghost use Rattle.core_queue.specs.Queues.{AreFrom};
ghost use Rattle.core_result.specs.Told.{AreFinishes, HasToldEnd, HasToldOne};

use base_types::Memory;
use chase_update::{Attempt, Finish, FinishList};
use core_queue::{QueuedUpdate, outcome};
use std::alloc::Global;

/// How the committed updates ended that were not withdrawn, in number order.
pub(crate) fn finishes(alloc: Global, queue: &[QueuedUpdate]) -> Result<FinishList, Memory>
    requires from { AreFrom 1 queue.now }
    ensures told { IfOk result (AreFinishes queue.now) }
{
    let mut finishes = FinishList::new(alloc);
    for queued in queue {
        if !queued.is_over() {
            return Ok(finishes);
        }
        tell_one(&mut finishes, queued)?;
    }
    Ok(finishes)
}

// Adds how the update ended, unless it was withdrawn.
fn tell_one(finishes: &mut FinishList, update: &QueuedUpdate) -> Result<(), Memory>
    requires between { IsBetween update.now.program }
    ensures told { OnOk result (HasToldOne update.now finishes.old finishes.new) }
{
    if update.withdrawn {
        return Ok(());
    }
    tell_end(finishes, &update.program)
}

// Adds how the attempt ended, if it did.
fn tell_end(finishes: &mut FinishList, program: &Attempt) -> Result<(), Memory>
    requires between { IsBetween program.now }
    ensures told { OnOk result (HasToldEnd program.now.attempt finishes.old finishes.new) }
{
    if let Some(outcome) = outcome(program) {
        finishes.push(Finish {
            outcome,
            steps: program.steps(),
            nulls: program.nulls(),
        })?;
    }
    Ok(())
}

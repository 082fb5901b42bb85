//! Restarts. The fresh attempts are made first, which may fail; to take them over cannot fail.
ghost use Rattle.std.specs.Prelude.{◌≡◌, ◌≤◌, length, drop, is_some, IfOk};
ghost use Rattle.core_queue.specs.Queues.{AreFrom};
ghost use Rattle.core_queue.specs.Events.{KeepsPlace};
ghost use Rattle.core_queue.specs.Renewals.{HasOneMore, AllHaveOneMore, IsFresh, AreFresh, AreThere, HasRestarted, HasRestartedIf, HaveRestarted, IsFreshIf};

use crate::events::renew;
use crate::updates::QueuedUpdate;
use base_types::Memory;
use chase_update::Attempt;
use core_conflict::Footprint;
use core_entries::Cause;
use std::alloc::Global;

impl QueuedUpdate {
    /// The next attempt at the update, at its start.
    pub fn fresh(&self, alloc: Global) -> Result<Attempt, Memory>
        requires more { HasOneMore self.now }
        ensures fresh { IfOk result (IsFresh self.now) }
    {
        self.program.begun_again(alloc)
    }

    /// Begins the next attempt: the update loses its writes and its log, and keeps its answers.
    pub fn restart(&mut self, fresh: Attempt)
        requires fresh { IsFresh self.old fresh }
        ensures restarted { HasRestarted self.old self.new }
        ensures place { KeepsPlace self.old self.new }
    {
        renew(&mut self.program, fresh);
        self.log.clear();
        self.footprint = Footprint::empty();
    }

    // Begins the next attempt, if there is one.
    fn restart_if(&mut self, fresh: Option<Attempt>)
        requires fresh { IsFreshIf self.old fresh }
        ensures restarted { HasRestartedIf fresh self.old self.new }
        ensures place { KeepsPlace self.old self.new }
    {
        if let Some(program) = fresh {
            self.restart(program);
        }
    }
}

/// The next attempts at the updates that have a cause. There is one result, which may be none, for each of the first updates.
pub fn fresh_programs(
    alloc: Global,
    upper: &[QueuedUpdate],
    causes: &[Option<Cause>],
) -> Result<Vec<Option<Attempt>>, Memory>
    requires long { length causes.now ≤ length upper.now }
    requires more { AllHaveOneMore upper.now }
    ensures fresh { IfOk result (λ fresh. AreFresh upper.now fresh.items) }
    ensures there { IfOk result (λ fresh. AreThere causes.now fresh.items) }
{
    let mut fresh = Vec::with_capacity(alloc, causes.len())?;
    for i in 0..causes.len() {
        fresh.push(fresh_if(alloc, &upper[i], &causes[i])?)?;
    }
    Ok(fresh)
}

// The next attempt at the update, if there is a cause.
fn fresh_if(
    alloc: Global,
    item: &QueuedUpdate,
    cause: &Option<Cause>,
) -> Result<Option<Attempt>, Memory>
    requires more { HasOneMore item.now }
    ensures fresh { IfOk result (IsFreshIf item.now) }
    ensures there { IfOk result (λ fresh. is_some fresh ≡ is_some cause.now) }
{
    if cause.is_some() {
        Ok(Some(item.fresh(alloc)?))
    } else {
        Ok(None)
    }
}

/// Restarts the updates from place `from` on for which there is a fresh attempt.
pub fn restart_marked(queue: &mut [QueuedUpdate], from: usize, fresh: Vec<Option<Attempt>>)
    requires place { from ≤ length queue.old }
    requires from { AreFrom 1 queue.old }
    requires fresh { AreFresh (drop from queue.old) fresh.items }
    ensures restarted { HaveRestarted from fresh.items queue.old queue.new }
    ensures numbers { AreFrom 1 queue.new }
{
    let mut place = from;
    for program in fresh {
        queue[place].restart_if(program);
        place += 1;
    }
}

//! The result of a core.
ghost use Rattle.std.specs.Prelude.{ℕ, List, IfOk, ◌-◌, ◌<◌, ◌^◌, length};
ghost use Rattle.def_chase.specs.Mappings.{Rule};
ghost use Rattle.def_chase.specs.Values.{Fact};
ghost use Rattle.core_queue.specs.Queues.{AreFrom};
ghost use Rattle.core_result.specs.Told.{AreLeft, AreVersionsOf, Tells};

use crate::finishes::finishes;
use crate::repositories::repository;
use crate::stops::stop;
use base_types::{Memory, TupleList};
use chase_update::SessionResult;
use core_queue::{QueuedUpdate, committed};
use set_versions::Versions;
use std::alloc::Global;

/// How the committed updates ended, where the lowest that is not committed stops, and the repository that the committed ones
/// left. Nulls are in their outer forms.
pub fn told(
    alloc: Global,
    queue: &[QueuedUpdate],
    versions: &Versions,
) -> Result<SessionResult, Memory>
    requires from { AreFrom 1 queue.now }
    requires few { length queue.now < 2 ^ 32 - 1 }
    ensures told { IfOk result (λ told. (ms : List Rule) (B : ℕ) (D : List Fact) →
        AreVersionsOf ms B D queue.now versions.now → Tells ms B D queue.now told) }
{
    Ok(SessionResult {
        finishes: finishes(alloc, queue)?,
        stop: stop(alloc, queue)?,
        repository: left(alloc, queue, versions)?,
    })
}

/// The repository that the committed updates left, in order, with nulls in their outer forms.
pub fn left(alloc: Global, queue: &[QueuedUpdate], versions: &Versions) -> Result<TupleList, Memory>
    requires from { AreFrom 1 queue.now }
    requires few { length queue.now < 2 ^ 32 - 1 }
    ensures left { IfOk result (λ tuples. (ms : List Rule) (B : ℕ) (D : List Fact) →
        AreVersionsOf ms B D queue.now versions.now → AreLeft ms B D queue.now tuples) }
{
    repository(alloc, versions, committed(queue) + 1)
}

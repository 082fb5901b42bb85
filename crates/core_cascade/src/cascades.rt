//! The walk upwards from the update of an event.
ghost use Rattle.std.specs.Prelude.{◌≡◌, ◌≤◌, true, suc, [], ◌∷◌, ◌++◌, length, map, IfOk, OnOk};
ghost use Rattle.base_types.specs.Meanings.{change_of};
ghost use Rattle.core_queue.specs.Queues.{AreFrom};
ghost use Rattle.core_queue.specs.Order.{ReadsAtMost};
ghost use Rattle.core_cascade.specs.Causes.{AreCausesOfWrites, AreCausesOfLoss};
ghost use Rattle.core_cascade.specs.Meanings.{above_of};
ghost use Rattle.core_cascade.specs.Walks.{AreFound, HasFootprint, HasLostImpact, HasNoCause, padded};

use crate::lost::Lost;
use base_limits::Mappings;
use base_types::{Memory, Write};
use core_conflict::{Impact, Sense};
use core_entries::Cause;
use core_queue::{Deps, QueuedUpdate};
use set_versions::Versions;
use std::alloc::Global;

/// What a walk upwards from the update of an event depends on: the mappings, the test of dependences, how many updates were
/// committed before the event, the update's number, whether the event's writes came or went, and the versions after them.
#[derive(Drop)]
pub struct Cascade<'a> {
    pub mappings: &'a Mappings<'a>,
    pub deps: Deps,
    pub committed: u32,
    pub update: u32,
    pub sense: Sense,
    pub whole: &'a Versions,
}

impl<'a> Cascade<'a> {
    /// Why each of the updates above is restarted, if it is, after the event's update wrote: a conflict with its writes, or
    /// else a dependence on a lower one that is restarted. `written` are the writes that came or went by the event. There
    /// is one answer for each of the first updates above, up to the last that is restarted.
    pub fn causes_of_writes(
        &self,
        alloc: Global,
        written: &[Write],
        upper: &[QueuedUpdate],
        readers: usize,
    ) -> Result<Vec<Option<Cause>>, Memory>
        requires from { AreFrom (suc self.now.update) upper.now }
        requires read { ReadsAtMost upper.now readers }
        requires within { readers ≤ length upper.now }
        ensures long { IfOk result (λ causes. length causes.items ≤ readers) }
        ensures causes { IfOk result (λ causes.
            AreCausesOfWrites (above_of self.now) (map change_of written.now) upper.now
            causes.items) }
    {
        let lost = Lost::none(alloc, self.whole)?;
        let found = self.walk(alloc, written, lost, upper, readers)?;
        Ok(found)
    }

    /// Why each of the updates above is restarted, if it is, after the event's update loses its trail: a dependence on it or on
    /// a lower one that is restarted. There is one answer for each of the first updates above, up to the last that is
    /// restarted.
    pub fn causes_of_loss(
        &self,
        alloc: Global,
        trail: &[Write],
        upper: &[QueuedUpdate],
        readers: usize,
    ) -> Result<Vec<Option<Cause>>, Memory>
        requires from { AreFrom (suc self.now.update) upper.now }
        requires read { ReadsAtMost upper.now readers }
        requires within { readers ≤ length upper.now }
        ensures long { IfOk result (λ causes. length causes.items ≤ readers) }
        ensures causes { IfOk result (λ causes.
            AreCausesOfLoss (above_of self.now) (map change_of trail.now) upper.now causes.items) }
    {
        let mut lost = Lost::none(alloc, self.whole)?;
        lost.lose(alloc, self.mappings.list(), self.update, trail)?;
        let found = self.walk(alloc, &[], lost, upper, readers)?;
        Ok(found)
    }

    // Why each of the updates above is restarted, if it is, given these writes that came or went and these trails that are lost
    // below. Only the first `readers` of the updates may have read something.
    fn walk<'r>(
        &self,
        alloc: Global,
        written: &[Write],
        mut lost: Lost<'r>,
        upper: &'r [QueuedUpdate],
        readers: usize,
    ) -> Result<Vec<Option<Cause>>, Memory>
        requires from { AreFrom (suc self.now.update) upper.now }
        requires read { ReadsAtMost upper.now readers }
        requires within { readers ≤ length upper.now }
        requires lost { HasLostImpact self.now.mappings.now lost }
        ensures long { IfOk result (λ found. length found.items ≤ readers) }
        ensures found { IfOk result (λ found.
            AreFound (above_of self.now) (map change_of written.now) lost.entry upper.now
            found.items) }
    {
        let mappings = self.mappings.list();
        let mut found = Vec::new(alloc);
        if readers == 0 {
            return Ok(found);
        }
        if leaves_all(written, &lost) {
            return Ok(found);
        }
        let impact = Impact::none().with(mappings, self.sense, written);
        for i in 0..readers {
            let reader = &upper[i];
            if passes(&impact, &lost, reader) {
                continue;
            }
            let cause = self.cause_for(alloc, written, &impact, &lost, reader)?;
            lost.lose_where(alloc, mappings, cause.is_some(), reader)?;
            put_where(&mut found, i, cause)?;
        }
        Ok(found)
    }
}

// Whether nothing was written and nothing is lost, so that nothing is changed.
fn leaves_all(written: &[Write], lost: &Lost<'_>) -> bool
    ensures written { result ≡ true → map change_of written.now ≡ [] }
    ensures lost { result ≡ true → lost.now.members.items ≡ [] }
{
    if !written.is_empty() {
        return false;
    }
    lost.members.is_empty()
}

// Whether the reader has no cause: no trail is lost below it, and no write of that impact may meet a read of it.
#[inline(always)]
fn passes(impact: &Impact, lost: &Lost<'_>, reader: &QueuedUpdate) -> bool
    requires covers { HasFootprint reader.now }
    ensures passed { result ≡ true → HasNoCause impact.now lost.now reader.now }
{
    if !lost.members.is_empty() {
        return false;
    }
    !reader
        .footprint
        .may_be_met(reader.program.direction(), impact)
}

// Puts the cause, if there is one, in its place after the causes that were found; the places between have none.
fn put_where(
    found: &mut Vec<Option<Cause>>,
    place: usize,
    cause: Option<Cause>,
) -> Result<(), Memory>
    requires few { length found.old.items ≤ place }
    ensures few { OnOk result (length found.new.items ≤ suc place) }
    ensures put { OnOk result (padded (suc place) found.new.items ≡
        padded place found.old.items ++ cause ∷ []) }
{
    if cause.is_some() {
        pad(found, place)?;
        found.push(cause)?;
        return Ok(());
    }
    Ok(())
}

// Fills up to the place with no cause.
fn pad(found: &mut Vec<Option<Cause>>, place: usize) -> Result<(), Memory>
    requires few { length found.old.items ≤ place }
    ensures padded { OnOk result (found.new.items ≡ padded place found.old.items) }
{
    'gaps: while found.len() < place {
        found.push(None)?;
    }
    Ok(())
}

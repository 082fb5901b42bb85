//! Why one update is restarted.
ghost use Rattle.std.specs.Prelude.{◌≡◌, map, IfOk};
ghost use Rattle.base_types.specs.Meanings.{change_of};
ghost use Rattle.core_cascade.specs.Meanings.{above_of};
ghost use Rattle.core_cascade.specs.Walks.{HasFootprint, HasImpact, HasLostImpact, IsCauseFor, IsConflict, IsConflictFor, IsDependenceFor, may_have_cause as may_have_cause_def};

use crate::cascades::Cascade;
use crate::lost::Lost;
use base_types::{Memory, Write};
use core_conflict::{Changed, Impact, Reader, Trail, first_changed};
use core_entries::Cause;
use core_queue::QueuedUpdate;
use std::alloc::Global;

impl<'a> Cascade<'a> {
    /// Why the reader is restarted, if it is: for its conflict with the writes, or else for a dependence on the trails that are
    /// lost below it.
    pub(crate) fn cause_for(
        &self,
        alloc: Global,
        written: &[Write],
        impact: &Impact,
        lost: &Lost<'_>,
        reader: &QueuedUpdate,
    ) -> Result<Option<Cause>, Memory>
        requires covers { HasFootprint reader.now }
        requires impact { HasImpact (above_of self.now) (map change_of written.now) impact.now }
        requires lost { HasLostImpact self.now.mappings.now lost.now }
        ensures cause { IfOk result
            (IsCauseFor (above_of self.now) (map change_of written.now) lost.now reader.now) }
    {
        if !self.may_have_cause(reader) {
            return Ok(None);
        }
        if let Some(cause) = self.conflict_where(alloc, written, impact, reader)? {
            return Ok(Some(cause));
        }
        let cause = self.dependence_for(alloc, lost, reader)?;
        Ok(cause)
    }

    // Whether the reader is live and has read something.
    fn may_have_cause(&self, reader: &QueuedUpdate) -> bool
        ensures answer { result ≡ may_have_cause_def self.now.committed reader.now }
    {
        if !reader.is_live(self.committed, reader.number()) {
            return false;
        }
        !reader.log.is_empty()
    }

    // The conflict of the live reader with the writes, if there are any and they may meet a read of it.
    fn conflict_where(
        &self,
        alloc: Global,
        written: &[Write],
        impact: &Impact,
        reader: &QueuedUpdate,
    ) -> Result<Option<Cause>, Memory>
        requires covers { HasFootprint reader.now }
        requires impact { HasImpact (above_of self.now) (map change_of written.now) impact.now }
        ensures conflict { IfOk result
            (IsConflictFor (above_of self.now) (map change_of written.now) reader.now) }
    {
        if written.is_empty() {
            return Ok(None);
        }
        if !reader
            .footprint
            .may_be_met(reader.program.direction(), impact)
        {
            return Ok(None);
        }
        let cause = self.conflict_for(alloc, written, impact, reader)?;
        Ok(cause)
    }

    // The conflict by the first read of the live reader that one of the writes meets and that has another value over what lies
    // below it, if there is one.
    fn conflict_for(
        &self,
        alloc: Global,
        written: &[Write],
        impact: &Impact,
        reader: &QueuedUpdate,
    ) -> Result<Option<Cause>, Memory>
        ensures conflict { IfOk result
            (IsConflictFor (above_of self.now) (map change_of written.now) reader.now) }
    {
        let below = self.whole.below(reader.number());
        let by = Reader {
            mappings: self.mappings.list(),
            direction: reader.program.direction(),
            own: reader.program.own().as_slice(),
            sense: self.sense,
        };
        let trails = [Trail {
            update: self.update,
            writes: written,
            impact: *impact,
        }];
        let changed = first_changed(alloc, &by, &trails, &below, reader.log.as_slice())?;
        let cause = self.conflict_by(reader.number(), changed);
        Ok(cause)
    }

    // The conflict of the reader of this number by its changed read, if there is one.
    fn conflict_by(&self, reader: u32, changed: Option<Changed>) -> Option<Cause>
        ensures conflict { IsConflict self.now.update reader changed result }
    {
        match changed {
            Some(changed) => {
                let Changed { number, read, now } = changed;
                Some(Cause::Conflict {
                    reader,
                    read: number,
                    writer: self.update,
                    old: read.answer,
                    new: now,
                })
            }
            None => None,
        }
    }

    // The dependence by the first read of the live reader that depends on the trails that are lost below it, if there is one.
    fn dependence_for(
        &self,
        alloc: Global,
        lost: &Lost<'_>,
        reader: &QueuedUpdate,
    ) -> Result<Option<Cause>, Memory>
        requires covers { HasFootprint reader.now }
        requires lost { HasLostImpact self.now.mappings.now lost.now }
        ensures dependence { IfOk result
            (IsDependenceFor (above_of self.now) lost.now reader.now) }
    {
        if lost.members.is_empty() {
            return Ok(None);
        }
        match self.first_dependent(alloc, lost, reader)? {
            Some(found) => Ok(Some(Cause::Depends {
                reader: reader.number(),
                read: found.number,
                on: lost.writer_for(self.mappings.list(), &found.read),
            })),
            None => Ok(None),
        }
    }
}

//! The first logged read of an update that depends on what is lost below it.
ghost use Rattle.std.specs.Prelude.{◌≡◌, IfOk};
ghost use Rattle.std.specs.Option.{option_map};
ghost use Rattle.core_cascade.specs.Meanings.{above_of};
ghost use Rattle.core_conflict.specs.Trails.{trails_of};
ghost use Rattle.core_cascade.specs.Walks.{HasFootprint, HasLostImpact};
ghost use Rattle.core_cascade.specs.Reached.{MeetAlike, numbered_of, first_dependent as first_dependent_def, first_invalid as first_invalid_def};

use crate::cascades::Cascade;
use crate::lost::Lost;
use base_types::Memory;
use chase_query::LoggedRead;
use core_conflict::{Reader, Sense, Trail, first_changed};
use core_queue::{Deps, QueuedUpdate};
use set_versions::Versions;
use std::alloc::Global;

/// A logged read with its number in the log, from 1.
#[derive(Drop)]
pub(crate) struct Numbered {
    pub(crate) number: u64,
    pub(crate) read: LoggedRead,
}

impl<'a> Cascade<'a> {
    /// The first read of the reader that depends on what is lost: if the test is precise, one that has another value without
    /// it; if it is coarse, one that mentions a relation of it.
    pub(crate) fn first_dependent(
        &self,
        alloc: Global,
        lost: &Lost<'_>,
        reader: &QueuedUpdate,
    ) -> Result<Option<Numbered>, Memory>
        requires covers { HasFootprint reader.now }
        requires lost { HasLostImpact self.now.mappings.now lost.now }
        ensures first { IfOk result (λ found. option_map numbered_of found ≡
            first_dependent_def (above_of self.now) lost.now reader.now) }
    {
        match self.deps {
            Deps::Precise => self.first_invalid(alloc, lost, reader),
            Deps::Coarse => lost.first_reached(alloc, self.mappings.list(), reader.log.as_slice()),
        }
    }

    // The first read of the reader that has another value without what is lost.
    fn first_invalid(
        &self,
        alloc: Global,
        lost: &Lost<'_>,
        reader: &QueuedUpdate,
    ) -> Result<Option<Numbered>, Memory>
        requires covers { HasFootprint reader.now }
        requires lost { HasLostImpact self.now.mappings.now lost.now }
        ensures first { IfOk result (λ found. option_map numbered_of found ≡
            first_invalid_def self.now.mappings.now lost.now.without lost.now.members.items
            reader.now) }
    {
        let met = self.trails_met(alloc, lost, reader)?;
        if met.is_empty() {
            return Ok(None);
        }
        self.first_met(alloc, &lost.without, &met, reader)
    }

    // The first read of the reader that a write of these trails meets and that has another value over these versions, which do
    // not have the trails.
    fn first_met(
        &self,
        alloc: Global,
        without: &Versions,
        trails: &[Trail<'_>],
        reader: &QueuedUpdate,
    ) -> Result<Option<Numbered>, Memory>
        ensures first { IfOk result (λ found. option_map numbered_of found ≡
            first_invalid_def self.now.mappings.now without.now trails.now reader.now) }
    {
        let below = without.below(reader.number());
        let by = Reader {
            mappings: self.mappings.list(),
            direction: reader.program.direction(),
            own: reader.program.own().as_slice(),
            sense: Sense::Went,
        };
        let changed = first_changed(alloc, &by, trails, &below, reader.log.as_slice())?;
        match changed {
            Some(changed) => Ok(Some(Numbered {
                number: changed.number,
                read: changed.read,
            })),
            None => Ok(None),
        }
    }

    // The lost trails of which a write may meet a read of the reader.
    fn trails_met<'m>(
        &self,
        alloc: Global,
        lost: &Lost<'m>,
        reader: &QueuedUpdate,
    ) -> Result<Vec<Trail<'m>>, Memory>
        requires covers { HasFootprint reader.now }
        requires lost { HasLostImpact self.now.mappings.now lost.now }
        ensures alike { IfOk result (λ met. MeetAlike self.now.mappings.now (trails_of met.items)
            (trails_of lost.now.members.items) reader.now) }
    {
        let direction = reader.program.direction();
        let mut met = Vec::new(alloc);
        for member in &lost.members {
            if !reader.footprint.may_be_met(direction, &member.impact) {
                continue;
            }
            met.push(Trail {
                update: member.update,
                writes: member.writes,
                impact: member.impact,
            })?;
        }
        Ok(met)
    }
}

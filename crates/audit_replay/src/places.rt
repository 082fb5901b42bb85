//! Which updates of a replay its levels reach, and what the update at a place may do next.
ghost use Rattle.std.specs.Prelude.{◌≡◌, ◌≤◌, ◌<◌, ◌+◌, drop, length, suc, OnOk};
ghost use Rattle.audit_updates.specs.Updates.{AreFrom};
ghost use Rattle.audit_updates.specs.Settings.{settings_of};
ghost use Rattle.audit_replay.specs.Places.{AreBetween, HaveCome, HaveRisen, StandStill};
ghost use Rattle.audit_replay.specs.Replays.{HasStandingAt};

use crate::levels::Levels;
use audit_updates::{AuditedUpdate, Settings, committed};
use base_types::Memory;
use core_entries::Standing;
use std::alloc::Global;

/// Moves the levels so that the uppermost one lies below the update at the place.
pub(crate) fn go_to(
    alloc: Global,
    levels: &mut Levels,
    updates: &[AuditedUpdate],
    place: usize,
) -> Result<(), Memory>
    requires within { place ≤ length updates.now }
    requires between { AreBetween updates.now }
    ensures there { OnOk result (HaveCome place updates.now levels.old levels.new) }
{
    sink_below(levels, place)?;
    rise_to(alloc, levels, updates, place)?;
    Ok(())
}

// Sinks until at most `place` levels are left above the lowest.
fn sink_below(levels: &mut Levels, place: usize) -> Result<(), Memory>
    ensures stand { OnOk result (StandStill levels.old levels.new) }
    ensures most { OnOk result (length levels.new ≤ place + 1) }
{
    'down: while levels.height() > place {
        levels.sink()?;
    }
    Ok(())
}

// Rises until `place` levels are above the lowest.
fn rise_to(
    alloc: Global,
    levels: &mut Levels,
    updates: &[AuditedUpdate],
    place: usize,
) -> Result<(), Memory>
    requires within { place ≤ length updates.now }
    requires between { AreBetween updates.now }
    requires most { length levels.old ≤ place + 1 }
    ensures there { OnOk result (HaveRisen place updates.now levels.old levels.new) }
{
    'up: while levels.height() < place {
        let next = levels.height();
        levels.rise(alloc, updates[next].trail())?;
    }
    Ok(())
}

/// What the update at the place may do next.
pub(crate) fn standing_at(updates: &[AuditedUpdate], settings: Settings, place: usize) -> Standing
    requires within { place < length updates.now }
    requires numbers { AreFrom 1 updates.now }
    ensures standing { HasStandingAt (settings_of settings) updates.now place result }
{
    let audited = &updates[place];
    audited.standing(settings, committed(updates), audited.number())
}

/// The updates above the one at the place.
pub(crate) fn above(updates: &[AuditedUpdate], place: usize) -> &[AuditedUpdate]
    requires within { place < length updates.now }
    ensures above { result.now ≡ drop (suc place) updates.now }
{
    &updates[place + 1..]
}

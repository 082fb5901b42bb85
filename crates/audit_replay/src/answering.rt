//! Deliveries of recorded answers, and answers by people, at a place among the audited updates.
ghost use Rattle.std.specs.Prelude.{◌<◌, length, IfOk, OnOk, OnErr};
ghost use Rattle.base_types.specs.Meanings.{choice_of};
ghost use Rattle.audit_updates.specs.Updates.{AreFrom};
ghost use Rattle.audit_updates.specs.Settings.{settings_of};
ghost use Rattle.audit_replay.specs.Steps.{IsAnswered, IsDelivered};

use crate::places::standing_at;
use audit_updates::{AuditedUpdate, Settings};
use base_types::{Choice, Memory, TryCopy};
use core_entries::Entry;
use std::alloc::Global;

/// Delivers the first recorded answer to the update at the place, and gives the entry.
pub(crate) fn deliver_to(
    updates: &mut [AuditedUpdate],
    settings: Settings,
    place: usize,
) -> Result<Entry, Memory>
    requires within { place < length updates.old }
    requires numbers { AreFrom 1 updates.old }
    ensures delivered { IfOk result
        (IsDelivered (settings_of settings) place updates.old updates.new) }
    ensures numbers { OnOk result (AreFrom 1 updates.new) }
    ensures err { OnErr result (AreFrom 1 updates.new) }
{
    updates[place].deliver()?;
    let update = updates[place].number();
    let standing = standing_at(updates, settings, place);
    Ok(Entry::Delivered { update, standing })
}

/// Answers the question of the update at the place, and gives the entry.
pub(crate) fn answer_to(
    alloc: Global,
    updates: &mut [AuditedUpdate],
    settings: Settings,
    place: usize,
    choice: Choice,
) -> Result<Entry, Memory>
    requires within { place < length updates.old }
    requires numbers { AreFrom 1 updates.old }
    ensures answered { IfOk result
        (IsAnswered (settings_of settings) place (choice_of choice) updates.old updates.new) }
    ensures numbers { OnOk result (AreFrom 1 updates.new) }
    ensures err { OnErr result (AreFrom 1 updates.new) }
{
    let copy = choice.copy(alloc)?;
    updates[place].answer(alloc, copy)?;
    let update = updates[place].number();
    let standing = standing_at(updates, settings, place);
    Ok(Entry::Answered {
        update,
        choice,
        standing,
    })
}

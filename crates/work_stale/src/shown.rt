//! What an entry shows of an update's writes, and whose writes it takes away.
ghost use Rattle.std.specs.Prelude.{◌≡◌, option_to_list, map};
ghost use Rattle.base_types.specs.Meanings.{change_of};
ghost use Rattle.core_entries.specs.Meanings.{entry_of, cause_of, standing_of};
ghost use Rattle.def_machine.specs.Cascade.{has_number};
ghost use Rattle.work_stale.specs.Shown.{reader_in, restarted_in, ends_hidden, lost_in, taken_in, shown_by};

use base_types::Write;
use core_entries::{Cause, Entry, Standing};

/// The update that is restarted for the cause.
pub(crate) fn reader_of(cause: &Cause) -> u32
    ensures { result ≡ reader_in (cause_of cause.now) }
{
    match cause {
        Cause::Conflict { reader, .. } => *reader,
        Cause::Depends { reader, .. } => *reader,
    }
}

/// The causes in the entry.
pub(crate) fn causes_in(entry: &Entry) -> &[Cause]
    ensures { map reader_in (map cause_of result.now) ≡ restarted_in (entry_of entry.now) }
{
    match entry {
        Entry::Stepped { causes, .. } => causes.as_slice(),
        Entry::Withdrawn { causes, .. } => causes.as_slice(),
        Entry::Admitted { .. } | Entry::Delivered { .. } | Entry::Answered { .. } => &[],
    }
}

/// Whether the entry restarts the update.
pub(crate) fn restarts(entry: &Entry, update: u32) -> bool
    ensures { result ≡ has_number (restarted_in (entry_of entry.now)) update }
{
    causes_in(entry)
        .iter()
        .any(|cause| reader_of(cause) == update)
}

// Whether an attempt with this standing has ended spent or refused, so that it shows no write.
fn ends_hidden(standing: Standing) -> bool
    ensures { result ≡ ends_hidden (standing_of standing) }
{
    matches!(standing, Standing::Spent | Standing::Refused)
}

/// The update whose own event takes its writes away.
pub(crate) fn lost_in(entry: &Entry) -> Option<u32>
    ensures { option_to_list result ≡ lost_in (entry_of entry.now) }
{
    match entry {
        Entry::Stepped {
            update,
            standing,
            ..
        } if ends_hidden(*standing) => Some(*update),
        Entry::Withdrawn { update, .. } => Some(*update),
        _ => None,
    }
}

/// Whether the entry takes the writes of the update away.
pub(crate) fn takes_away(entry: &Entry, update: u32) -> bool
    ensures { result ≡ has_number (taken_in (entry_of entry.now)) update }
{
    lost_in(entry) == Some(update) || restarts(entry, update)
}

/// The writes of the update that the entry shows.
pub(crate) fn shown_by(entry: &Entry, update: u32) -> &[Write]
    ensures { map change_of result.now ≡ shown_by update (entry_of entry.now) }
{
    match entry {
        Entry::Stepped {
            update: by,
            writes,
            ..
        } if *by == update => writes.as_slice(),
        _ => &[],
    }
}

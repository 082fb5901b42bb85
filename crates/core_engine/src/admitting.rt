//! The admission of all updates of a session.
ghost use Rattle.std.specs.Prelude.{◌≡◌, ◌≤◌, length, map, IfOk};
ghost use Rattle.core_entries.specs.Meanings.{entry_of};
ghost use Rattle.core_queue.specs.Queues.{AreFrom};
ghost use Rattle.core_engine.specs.Admitted.{AreAdmitted};
ghost use Rattle.core_engine.specs.States.{admissions_from};

use base_types::Memory;
use core_entries::{Entry, EntryList};
use core_queue::QueuedUpdate;
use lang_session::SessionUpdate;
use std::alloc::Global;

/// The updates in number order, each at the start of its attempt 0 and with its recorded answers.
pub(crate) fn admitted(
    alloc: Global,
    updates: &[SessionUpdate],
) -> Result<Vec<QueuedUpdate>, Memory>
    requires few { length updates.now ≤ 1000 }
    ensures admitted { IfOk result (λ queue. AreAdmitted updates.now queue.items) }
    ensures numbers { IfOk result (λ queue. AreFrom 1 queue.items) }
    ensures long { IfOk result (λ queue. length queue.items ≡ length updates.now) }
{
    let mut queue = Vec::new(alloc);
    let mut number = 1;
    for update in updates {
        queue.push(QueuedUpdate::admit(alloc, &update.update, number, &update.answers)?)?;
        number += 1;
    }
    Ok(queue)
}

// Most updates have no more entries than this number, their admissions included.
const MOST_ENTRIES: usize = 6;

/// The entries of the admissions of these updates.
pub(crate) fn admissions(alloc: Global, updates: &[SessionUpdate]) -> Result<EntryList, Memory>
    requires few { length updates.now ≤ 1000 }
    ensures entries { IfOk result (λ history. map entry_of history.items ≡ admissions_from 1
        (length updates.now)) }
{
    let mut history = EntryList::new(alloc);
    history.reserve(updates.len() * MOST_ENTRIES)?;
    for i in 0..updates.len() {
        let update = i as u32 + 1;
        history.push(Entry::Admitted { update })?;
    }
    Ok(history)
}

//! The admission of one more update.
ghost use Rattle.std.specs.Prelude.{◌≡◌, ◌<◌, ◌≤◌, suc, [], ◌∷◌, ◌++◌, length, IfOk, IfErr, OnOk, OnErr};
ghost use Rattle.base_types.specs.Meanings.{operation_of};
ghost use Rattle.core_queue.specs.Queues.{AreFrom};
ghost use Rattle.core_engine.specs.Admissions.{AdmitsTo, IsNew};

use crate::stepping::put_last;
use base_types::{ChoiceList, Memory, Update, UpdateList};
use core_entries::{Entry, EntryList};
use core_queue::QueuedUpdate;
use std::alloc::Global;

/// Admits the update after the others, with no recorded answers, and returns its number. On an error the update is handed back,
/// and the queue and the history keep their meaning.
pub(crate) fn admit_at(
    alloc: Global,
    queue: &mut Vec<QueuedUpdate>,
    history: &mut EntryList,
    later: &mut UpdateList,
    update: Update,
) -> Result<u32, Update>
    requires few { length queue.old.items < 1000 }
    requires numbers { AreFrom 1 queue.old.items }
    ensures made { OnOk result (AdmitsTo (operation_of update.operation) queue.old.items
        history.old.items queue.new.items history.new.items) }
    ensures later { OnOk result (later.new.items ≡ later.old.items ++ update ∷ []) }
    ensures number { IfOk result (λ n. n ≡ suc (length queue.old.items)) }
    ensures queue { OnErr result (queue.new.items ≡ queue.old.items) }
    ensures history { OnErr result (history.new.items ≡ history.old.items) }
    ensures kept { OnErr result (later.new.items ≡ later.old.items) }
    ensures back { IfErr result (λ back. back ≡ update) }
{
    let number = next_number(queue.as_slice());
    match prepare_admission(alloc, queue, history, later, &update, number) {
        Ok(()) => {
            put_last(history, Entry::Admitted { update: number });
            put_update(later, update);
            Ok(number)
        }
        Err(_) => Err(update),
    }
}

// The number of one more update.
fn next_number(queue: &[QueuedUpdate]) -> u32
    requires few { length queue.now < 1000 }
    ensures number { result ≡ suc (length queue.now) }
{
    queue.len() as u32 + 1
}

// Makes room for the entry and for the update, and then puts its queued update after the others.
fn prepare_admission(
    alloc: Global,
    queue: &mut Vec<QueuedUpdate>,
    history: &mut EntryList,
    later: &mut UpdateList,
    update: &Update,
    number: u32,
) -> Result<(), Memory>
    ensures new { OnOk result (IsNew number (operation_of update.now.operation) queue.old.items
        queue.new.items) }
    ensures spare { OnOk result (1 ≤ history.new.spare) }
    ensures room { OnOk result (1 ≤ later.new.spare) }
    ensures queue { OnErr result (queue.new.items ≡ queue.old.items) }
    ensures history { history.new.items ≡ history.old.items }
    ensures later { later.new.items ≡ later.old.items }
{
    history.reserve(1)?;
    later.reserve(1)?;
    let none = ChoiceList::new(alloc);
    let queued = QueuedUpdate::admit(alloc, update, number, &none)?;
    queue.push(queued)?;
    Ok(())
}

// Puts the update at the end of the list, which has room for it.
fn put_update(later: &mut UpdateList, update: Update)
    requires room { 1 ≤ later.old.spare }
    ensures all { later.new.items ≡ later.old.items ++ update ∷ [] }
{
    match later.push(update) {
        Ok(()) => {}
        Err(_) => unreachable!(),
    }
}

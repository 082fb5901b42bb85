//! A delivery of a recorded answer.
ghost use Rattle.std.specs.Prelude.{◌≡◌, ◌<◌, ◌≤◌, length, OnOk, OnErr};
ghost use Rattle.core_queue.specs.Queues.{AreFrom};
ghost use Rattle.core_queue.specs.Settings.{settings_of};
ghost use Rattle.core_queue.specs.Order.{CommitsAtLeast};
ghost use Rattle.core_engine.specs.Follows.{AreSame, HasAnswerRoomAt, DeliversTo, KeepsCommitted, KeepsUnread, KeepsUnready, TellsDelivery};

use crate::stepping::put_last;
use base_types::Memory;
use core_entries::{Entry, EntryList};
use core_queue::{QueuedUpdate, Settings, committed_from};

/// Delivers the first recorded answer to the update at the place; at least `least` updates below it are committed. On an error
/// the queue and the history keep their meaning.
pub(crate) fn deliver_at(
    settings: Settings,
    least: u32,
    queue: &mut [QueuedUpdate],
    history: &mut EntryList,
    place: usize,
) -> Result<(), Memory>
    requires place { place < length queue.old }
    requires numbers { AreFrom 1 queue.old }
    requires least { CommitsAtLeast queue.old least }
    requires below { least ≤ place }
    ensures made { OnOk result (DeliversTo (settings_of settings) place queue.old history.old.items
        queue.new history.new.items) }
    ensures least { OnOk result (KeepsCommitted place queue.old queue.new) }
    ensures most { OnOk result (KeepsUnread place queue.old queue.new) }
    ensures unready { OnOk result (KeepsUnready place queue.old queue.new) }
    ensures queue { OnErr result (AreSame queue.old queue.new) }
    ensures history { OnErr result (history.new.items ≡ history.old.items) }
    ensures long { length queue.new ≡ length queue.old }
{
    reserve_delivery(queue, history, place)?;
    make_delivery(settings, least, queue, history, place);
    Ok(())
}

/// Makes room for one more answer to the update at the place, and for its entry. The queue and the history keep their meaning.
pub(crate) fn reserve_delivery(
    queue: &mut [QueuedUpdate],
    history: &mut EntryList,
    place: usize,
) -> Result<(), Memory>
    requires place { place < length queue.old }
    ensures room { OnOk result (HasAnswerRoomAt place queue.new) }
    ensures spare { OnOk result (1 ≤ history.new.spare) }
    ensures same { AreSame queue.old queue.new }
    ensures long { length queue.new ≡ length queue.old }
    ensures history { history.new.items ≡ history.old.items }
{
    queue[place].reserve_answer()?;
    history.reserve(1)
}

// Delivers the first recorded answer; at least `least` updates below the place are committed. There is room for the answer.
fn make_delivery(
    settings: Settings,
    least: u32,
    queue: &mut [QueuedUpdate],
    history: &mut EntryList,
    place: usize,
)
    requires place { place < length queue.old }
    requires numbers { AreFrom 1 queue.old }
    requires least { CommitsAtLeast queue.old least }
    requires below { least ≤ place }
    requires room { HasAnswerRoomAt place queue.old }
    requires spare { 1 ≤ history.old.spare }
    ensures made { DeliversTo (settings_of settings) place queue.old history.old.items queue.new
        history.new.items }
    ensures least { KeepsCommitted place queue.old queue.new }
    ensures most { KeepsUnread place queue.old queue.new }
    ensures unready { KeepsUnready place queue.old queue.new }
    ensures long { length queue.new ≡ length queue.old }
{
    queue[place].deliver();
    let entry = delivery_entry(settings, least, queue, place);
    put_last(history, entry);
}

// The entry of the delivery to the update at the place; at least `least` updates are committed.
fn delivery_entry(settings: Settings, least: u32, queue: &[QueuedUpdate], place: usize) -> Entry
    requires place { place < length queue.now }
    requires numbers { AreFrom 1 queue.now }
    requires least { CommitsAtLeast queue.now least }
    ensures told { TellsDelivery (settings_of settings) place queue.now result }
{
    let committed = committed_from(queue, least);
    let queued = &queue[place];
    let update = queued.number();
    let standing = queued.standing(settings, committed, update);
    Entry::Delivered { update, standing }
}

//! An answer by a person.
ghost use Rattle.std.specs.Prelude.{◌≡◌, ◌<◌, ◌≤◌, length, IfOk, IfErr, OnOk, OnErr};
ghost use Rattle.base_types.specs.Meanings.{choice_of};
ghost use Rattle.core_queue.specs.Queues.{AreFrom};
ghost use Rattle.core_queue.specs.Settings.{settings_of};
ghost use Rattle.core_engine.specs.Answered.{AnswersTo, TellsAnswer};
ghost use Rattle.core_engine.specs.Follows.{AreSame, HasAnswerRoomAt};

use crate::deliveries::reserve_delivery;
use crate::stepping::put_last;
use base_types::{Choice, Memory, TryCopy};
use core_entries::{Entry, EntryList};
use core_queue::{QueuedUpdate, Settings, committed};
use std::alloc::Global;

/// Makes the choice the answer that the update at the place waits for. On an error the choice is handed back, and the queue and
/// the history keep their meaning.
pub(crate) fn answer_at(
    alloc: Global,
    settings: Settings,
    queue: &mut [QueuedUpdate],
    history: &mut EntryList,
    place: usize,
    choice: Choice,
) -> Result<(), Choice>
    requires place { place < length queue.old }
    requires numbers { AreFrom 1 queue.old }
    ensures made { OnOk result (AnswersTo (settings_of settings) place (choice_of choice) queue.old
        history.old.items queue.new history.new.items) }
    ensures queue { OnErr result (AreSame queue.old queue.new) }
    ensures history { OnErr result (history.new.items ≡ history.old.items) }
    ensures long { length queue.new ≡ length queue.old }
    ensures back { IfErr result (λ back. choice_of back ≡ choice_of choice) }
{
    match prepare_answer(alloc, queue, history, place, &choice) {
        Ok(copy) => {
            put_answer(alloc, settings, queue, history, place, choice, copy);
            Ok(())
        }
        Err(_) => Err(choice),
    }
}

// Makes room for the answer, and copies the choice for its entry. The queue and the history keep their meaning.
fn prepare_answer(
    alloc: Global,
    queue: &mut [QueuedUpdate],
    history: &mut EntryList,
    place: usize,
    choice: &Choice,
) -> Result<Choice, Memory>
    requires place { place < length queue.old }
    ensures room { OnOk result (HasAnswerRoomAt place queue.new) }
    ensures spare { OnOk result (1 ≤ history.new.spare) }
    ensures copied { IfOk result (λ copy. choice_of copy ≡ choice_of choice.now) }
    ensures same { AreSame queue.old queue.new }
    ensures long { length queue.new ≡ length queue.old }
    ensures history { history.new.items ≡ history.old.items }
{
    reserve_delivery(queue, history, place)?;
    let copy = choice.copy(alloc)?;
    Ok(copy)
}

// Makes the choice the answer that the update at the place waits for, and puts its copy into the entry. There is room for both.
fn put_answer(
    alloc: Global,
    settings: Settings,
    queue: &mut [QueuedUpdate],
    history: &mut EntryList,
    place: usize,
    choice: Choice,
    copy: Choice,
)
    requires place { place < length queue.old }
    requires numbers { AreFrom 1 queue.old }
    requires room { HasAnswerRoomAt place queue.old }
    requires spare { 1 ≤ history.old.spare }
    requires copied { choice_of copy ≡ choice_of choice }
    ensures made { AnswersTo (settings_of settings) place (choice_of choice) queue.old
        history.old.items queue.new history.new.items }
    ensures long { length queue.new ≡ length queue.old }
{
    queue[place].answer(alloc, choice);
    let entry = answer_entry(settings, queue, place, copy);
    put_last(history, entry);
}

// The entry of the answer to the update at the place.
fn answer_entry(settings: Settings, queue: &[QueuedUpdate], place: usize, choice: Choice) -> Entry
    requires place { place < length queue.now }
    requires numbers { AreFrom 1 queue.now }
    ensures told { TellsAnswer (settings_of settings) place (choice_of choice) queue.now result }
{
    let committed = committed(queue);
    let queued = &queue[place];
    let update = queued.number();
    let standing = queued.standing(settings, committed, update);
    Entry::Answered {
        update,
        choice,
        standing,
    }
}

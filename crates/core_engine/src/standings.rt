//! Questions about one update of a queue.
ghost use Rattle.std.specs.Option.{option_map, option_copied};
ghost use Rattle.std.specs.Prelude.{◌≡◌, ◌≤◌, suc};
ghost use Rattle.base_types.specs.Meanings.{choice_of};
ghost use Rattle.core_entries.specs.Meanings.{standing_of};
ghost use Rattle.chase_question.specs.Inquiries.{inquiry_of};
ghost use Rattle.core_queue.specs.Queues.{AreFrom};
ghost use Rattle.core_queue.specs.Settings.{settings_of};
ghost use Rattle.core_engine.specs.States.{numbered_at};
ghost use Rattle.core_engine.specs.Told.{HasStandingAt, HasQuestionAt, HasWaitingAt};

use chase_question::Question;
use core_entries::Standing;
use core_queue::{QueuedUpdate, Settings, committed};

/// The queued update of this number, counted from 1; None exactly if there is none.
pub(crate) fn queued_at(queue: &[QueuedUpdate], number: u32) -> Option<&QueuedUpdate>
    ensures queued { option_copied result ≡ numbered_at queue.now number }
{
    if number == 0 {
        return None;
    }
    queue.get(number as usize - 1)
}

#[tactic(auto, using(crate::proofs::Telling::between_at))]
/// What the update of this number may do next; None exactly if there is no such update.
pub(crate) fn standing(queue: &[QueuedUpdate], settings: Settings, number: u32) -> Option<Standing>
    requires from { AreFrom 1 queue.now }
    ensures standing { HasStandingAt (settings_of settings) queue.now number
        (option_map standing_of result) }
{
    match queued_at(queue, number) {
        Some(queued) => Some(queued.standing(settings, committed(queue), number)),
        None => None,
    }
}

#[tactic(auto, using(crate::proofs::Telling::between_at))]
/// The question that is put to people for the update of this number, if one is.
pub(crate) fn question(queue: &[QueuedUpdate], settings: Settings, number: u32) -> Option<&Question>
    requires from { AreFrom 1 queue.now }
    ensures question { HasQuestionAt (settings_of settings) queue.now number
        (option_map inquiry_of (option_copied result)) }
{
    match queued_at(queue, number) {
        Some(queued) => queued.question(settings, committed(queue), number),
        None => None,
    }
}

/// Whether an answer is recorded for the update of this number that was not delivered yet.
pub(crate) fn has_waiting(queue: &[QueuedUpdate], number: u32) -> bool
    ensures waiting { HasWaitingAt queue.now number result }
{
    match queued_at(queue, number) {
        Some(queued) => !queued.inbox.is_empty(),
        None => false,
    }
}

/// The place of the update of this number, counted from 0.
pub(crate) fn place_of(number: u32) -> usize
    requires { 1 ≤ number }
    ensures { suc result ≡ number }
{
    number as usize - 1
}

//! Which of the updates come first.
ghost use Rattle.std.specs.Prelude.{◌≡◌, ◌≤◌, suc, drop, length, Some, IfSome, is_none as is_none_def};
ghost use Rattle.def_machine.specs.Cascade.{has_number};
ghost use Rattle.core_queue.specs.Settings.{settings_of};
ghost use Rattle.core_queue.specs.Queues.{AreFrom};
ghost use Rattle.core_queue.specs.Programs.{IsBetween};
ghost use Rattle.core_queue.specs.Order.{HasCommitted, CommitsAtLeast, CommitsOn, IsFirstReady, IsFirstDeliverable, IsFirstBesides, IsNextDeliverable, IsNextOf, IsReadyBesides, IsLowestReady, IsLowestDeliverable, IsLowestBesides, IsQuiet, UnreadyUpTo};

use crate::settings::Settings;
use crate::updates::QueuedUpdate;

/// How many updates are committed: the longest prefix of updates that are over.
pub fn committed(queue: &[QueuedUpdate]) -> u32
    requires from { AreFrom 1 queue.now }
    ensures committed { HasCommitted queue.now result }
{
    committed_from(queue, 0)
}

/// How many updates are committed, given that at least `least` are; those are not looked at.
pub fn committed_from(queue: &[QueuedUpdate], least: u32) -> u32
    requires from { AreFrom 1 queue.now }
    requires least { CommitsAtLeast queue.now least }
    ensures committed { HasCommitted queue.now result }
{
    counted(after(queue, least), least)
}

/// The least number of a ready update, if one is ready, given that at least `least` updates are committed.
pub fn lowest_ready(queue: &[QueuedUpdate], settings: Settings, least: u32) -> Option<u32>
    requires from { AreFrom 1 queue.now }
    requires least { CommitsAtLeast queue.now least }
    ensures lowest { IsLowestReady (settings_of settings) queue.now result }
{
    let committed = committed_from(queue, least);
    first_ready(after(queue, committed), settings, committed)
}

/// The least number of an update to which a recorded answer may be delivered, if there is one, given that at least `least`
/// updates are committed.
pub fn lowest_deliverable(queue: &[QueuedUpdate], settings: Settings, least: u32) -> Option<u32>
    requires from { AreFrom 1 queue.now }
    requires least { CommitsAtLeast queue.now least }
    ensures lowest { IsLowestDeliverable (settings_of settings) queue.now result }
{
    let committed = committed_from(queue, least);
    first_deliverable(after(queue, committed), settings, committed)
}

/// The first update that is not committed, if a recorded answer may be delivered to it, given that at least `least` updates are
/// committed. No lower update is deliverable then.
pub fn next_deliverable(queue: &[QueuedUpdate], settings: Settings, least: u32) -> Option<u32>
    requires from { AreFrom 1 queue.now }
    requires least { CommitsAtLeast queue.now least }
    ensures next { IsNextDeliverable (settings_of settings) queue.now result }
    ensures lowest { IfSome result
        (λ n. IsLowestDeliverable (settings_of settings) queue.now (Some n)) }
{
    let committed = committed_from(queue, least);
    deliverable_at_once(after(queue, committed), settings, committed)
}

/// The least number of a ready update that is none of `numbers`, if there is one. At least `least` updates are committed, and
/// the first `unready` are unready; those are not looked at.
pub fn lowest_ready_besides(
    queue: &[QueuedUpdate],
    settings: Settings,
    least: u32,
    unready: usize,
    numbers: &[u32],
) -> Option<u32>
    requires from { AreFrom 1 queue.now }
    requires least { CommitsAtLeast queue.now least }
    requires unready { UnreadyUpTo queue.now unready }
    ensures lowest { IsLowestBesides numbers.now (settings_of settings) queue.now result }
{
    let committed = committed_from(queue, least);
    first_besides(queue, unready, settings, committed, numbers)
}

/// Whether nothing is ready and nothing is deliverable, given that at least `least` updates are committed.
pub fn is_quiet(queue: &[QueuedUpdate], settings: Settings, least: u32) -> bool
    requires from { AreFrom 1 queue.now }
    requires least { CommitsAtLeast queue.now least }
    ensures quiet { IsQuiet (settings_of settings) queue.now result }
{
    let committed = committed_from(queue, least);
    let rest = after(queue, committed);
    let none_ready = is_none(first_ready(rest, settings, committed));
    let none_deliverable = is_none(first_deliverable(rest, settings, committed));
    none_ready && none_deliverable
}

#[tactic(auto, using(crate::proofs::Walking::long_enough))]
// The updates after the first `first`.
fn after(queue: &[QueuedUpdate], first: u32) -> &[QueuedUpdate]
    requires first { CommitsAtLeast queue.now first }
    ensures rest { result.now ≡ drop first queue.now }
{
    past(queue, first as usize)
}

// The updates after the first `first`.
fn past(queue: &[QueuedUpdate], first: usize) -> &[QueuedUpdate]
    requires there { first ≤ length queue.now }
    ensures rest { result.now ≡ drop first queue.now }
{
    &queue[first..]
}

// How many updates are committed, given that `committed` are and that `rest` are the updates after those.
fn counted(rest: &[QueuedUpdate], committed: u32) -> u32
    requires from { AreFrom (suc committed) rest.now }
    ensures committed { CommitsOn committed rest.now result }
{
    let mut count = committed;
    for queued in rest {
        if !queued.is_over() {
            return count;
        }
        count = queued.number();
    }
    count
}

// The least number of a ready update, if `committed` updates are committed and `rest` are those after them.
fn first_ready(rest: &[QueuedUpdate], settings: Settings, committed: u32) -> Option<u32>
    requires from { AreFrom (suc committed) rest.now }
    ensures first { IsFirstReady (settings_of settings) committed (suc committed) rest.now result }
{
    for queued in rest {
        let number = queued.number();
        if queued.is_ready(settings, committed, number) {
            return Some(number);
        }
    }
    None
}

// The least number of a deliverable update, if `committed` updates are committed and `rest` are those after them.
fn first_deliverable(rest: &[QueuedUpdate], settings: Settings, committed: u32) -> Option<u32>
    requires from { AreFrom (suc committed) rest.now }
    ensures first { IsFirstDeliverable (settings_of settings) committed (suc committed) rest.now
        result }
{
    for queued in rest {
        let number = queued.number();
        if queued.is_deliverable(settings, committed, number) {
            return Some(number);
        }
    }
    None
}

// The first of these updates, if it is deliverable; `committed` updates are committed, and `rest` are those after them.
fn deliverable_at_once(rest: &[QueuedUpdate], settings: Settings, committed: u32) -> Option<u32>
    requires from { AreFrom (suc committed) rest.now }
    ensures next { IsNextOf (settings_of settings) committed rest.now result }
    ensures first { IfSome result
        (λ n. IsFirstDeliverable (settings_of settings) committed (suc committed) rest.now
        (Some n)) }
{
    let [queued, ..] = rest else {
        return None;
    };
    let number = queued.number();
    if queued.is_deliverable(settings, committed, number) {
        Some(number)
    } else {
        None
    }
}

// The least number of a ready update after the first `first` that is none of `numbers`, if `committed` updates are committed.
fn first_besides(
    queue: &[QueuedUpdate],
    first: usize,
    settings: Settings,
    committed: u32,
    numbers: &[u32],
) -> Option<u32>
    requires from { AreFrom 1 queue.now }
    requires there { first ≤ length queue.now }
    ensures first { IsFirstBesides numbers.now (settings_of settings) committed (suc first)
        (drop first queue.now) result }
{
    let rest = past(queue, first);
    for queued in rest {
        let number = queued.number();
        if is_ready_besides(queued, settings, committed, number, numbers) {
            return Some(number);
        }
    }
    None
}

// Whether the update is ready and its number is none of `numbers`, if `committed` updates are committed.
fn is_ready_besides(
    item: &QueuedUpdate,
    settings: Settings,
    committed: u32,
    number: u32,
    numbers: &[u32],
) -> bool
    requires between { IsBetween item.now.program }
    ensures ready { IsReadyBesides numbers.now (settings_of settings) committed number item.now
        result }
{
    let ready = item.is_ready(settings, committed, number);
    let besides = !is_among(numbers, number);
    ready && besides
}

// Whether the number is among these.
fn is_among(numbers: &[u32], number: u32) -> bool
    ensures among { result ≡ has_number numbers.now number }
{
    numbers.contains(&number)
}

// Whether there is no number.
fn is_none(number: Option<u32>) -> bool
    ensures none { result ≡ is_none_def number }
{
    number.is_none()
}

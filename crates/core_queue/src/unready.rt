//! How far up the updates are unready. The search for a ready one begins after them.
ghost use Rattle.core_queue.specs.Queues.{AreFrom};
ghost use Rattle.core_queue.specs.Order.{UnreadyUpTo};

use crate::updates::QueuedUpdate;

/// How many of the first updates are unready, given that the first `first` are; those are not looked at.
pub fn unready_from(queue: &[QueuedUpdate], first: usize) -> usize
    requires from { AreFrom 1 queue.now }
    requires first { UnreadyUpTo queue.now first }
    ensures unready { UnreadyUpTo queue.now result }
{
    let mut count = first;
    'updates: while count < queue.len() {
        if !queue[count].is_unready() {
            return count;
        }
        count += 1;
    }
    count
}

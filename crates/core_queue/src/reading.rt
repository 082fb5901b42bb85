//! How far up the updates have read something. Those above have no cause to restart.
ghost use Rattle.std.specs.Prelude.{◌≡◌, ◌≤◌, false, [], length};
ghost use Rattle.core_queue.specs.Order.{ReadsAtMost};

use crate::updates::QueuedUpdate;

/// How many of the first updates may have read something; none after them has. None after the first `most` has read anything.
pub fn reads_at_most(queue: &[QueuedUpdate], most: u32) -> u32
    requires most { ReadsAtMost queue.now most }
    ensures most { ReadsAtMost queue.now result }
    ensures within { result ≤ length queue.now }
{
    let mut count = within(queue, most);
    'updates: while count > 0 {
        if has_read(&queue[count as usize - 1]) {
            return count;
        }
        count -= 1;
    }
    0
}

// `most`, or the number of updates if that is less.
fn within(queue: &[QueuedUpdate], most: u32) -> u32
    requires most { ReadsAtMost queue.now most }
    ensures most { ReadsAtMost queue.now result }
    ensures within { result ≤ length queue.now }
{
    let all = queue.len();
    if most as usize <= all {
        most
    } else {
        all as u32
    }
}

// Whether the update has logged a read.
fn has_read(item: &QueuedUpdate) -> bool
    ensures read { result ≡ false → item.now.log.items ≡ [] }
{
    !item.log.is_empty()
}

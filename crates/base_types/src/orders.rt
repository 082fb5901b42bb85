//! The order of two slices: the first items that differ decide; if none differ, the lengths do.
ghost use Rattle.std.specs.Prelude.{◌≡◌};
ghost use Rattle.std.specs.Cmp.Lexicographic.{slice_cmp};

use std::cmp::Ordering;

// From this length on the library's comparison is faster, as it skips many equal items at once.
const LONG: usize = 16;

/// The order of two slices. Most words and rows are short, so they are compared item by item.
pub fn order<T: Ord>(items: &[T], others: &[T]) -> Ordering
    ensures order { result ≡ slice_cmp T.cmp items.now others.now }
{
    if items.len() < LONG || others.len() < LONG {
        order_in_turn(items, others)
    } else {
        order_of_long(items, others)
    }
}

// The order of two long slices. Never inlined, so that a comparison of short slices need not save registers for it.
#[inline(never)]
fn order_of_long<T: Ord>(items: &[T], others: &[T]) -> Ordering
    ensures order { result ≡ slice_cmp T.cmp items.now others.now }
{
    items.cmp(&others)
}

// The order of two slices, item by item.
fn order_in_turn<T: Ord>(items: &[T], others: &[T]) -> Ordering
    ensures order { result ≡ slice_cmp T.cmp items.now others.now }
{
    for i in 0..items.len().min(others.len()) {
        let found = items[i].cmp(&others[i]);
        if found.is_ne() {
            return found;
        }
    }
    items.len().cmp(&others.len())
}

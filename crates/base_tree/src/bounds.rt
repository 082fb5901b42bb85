//! Facts about where the keys of a subtree lie, known before the keys are looked at.
ghost use Rattle.std.specs.Prelude.{◌≡◌, true, false};
ghost use Rattle.base_tree.specs.Bounds.{KeepsWithin};

use crate::searches::Search;
use std::cmp::Ordering;

/// Whether it is known that no key lies before the zone (`low`), and that none lies after it (`high`).
#[derive(Clone, Copy)]
pub(crate) struct Bounds {
    pub(crate) low: bool,
    pub(crate) high: bool,
}

impl Bounds {
    /// The bounds if nothing is known.
    pub(crate) fn none() -> Bounds
        ensures low { result.low ≡ false }
        ensures high { result.high ≡ false }
    {
        Bounds {
            low: false,
            high: false,
        }
    }

    /// The bounds of the keys below a key in the zone.
    pub(crate) fn below(self) -> Bounds
        ensures low { result.low ≡ self.low }
        ensures high { result.high ≡ true }
    {
        Bounds {
            low: self.low,
            high: true,
        }
    }

    /// The bounds of the keys above a key in the zone.
    pub(crate) fn above(self) -> Bounds
        ensures low { result.low ≡ true }
        ensures high { result.high ≡ self.high }
    {
        Bounds {
            low: true,
            high: self.high,
        }
    }
}

/// Whether the key lies before, in or after the zone. The key must keep within the bounds, which may spare the comparison.
pub(crate) fn place_within<K: Ord, V, S: Search<K, V>>(
    search: &S,
    bounds: Bounds,
    key: &K,
) -> Ordering
    requires within { KeepsWithin bounds (S.place search.now key.now) }
    ensures { result ≡ S.place search.now key.now }
{
    if bounds.low && bounds.high {
        return Ordering::Equal;
    }
    search.place(key)
}

//! The view that an attempt had when it asked, but over what lies below it now.
ghost use Rattle.std.specs.Prelude.{◌≡◌, ◌≤◌, length, map, take, OnOk};
ghost use Rattle.base_types.specs.Meanings.{change_of};

use base_types::{Facts, Memory, Write};
use chase_eval::View;
use std::alloc::Global;

/// The view of an attempt as it was when the attempt had made the first `seen` of its writes.
#[derive(Drop)]
pub(crate) struct EarlierView<'a, F: Facts> {
    pub(crate) view: View<'a, F>,
    pub(crate) seen: usize,
}

#[tactic(auto, using(crate::proofs::Seeing::seen_first, crate::proofs::Seeing::seen_on))]
/// Changes the view from the first `seen` own writes to the first `count`.
pub(crate) fn see<'a, F: Facts>(
    alloc: Global,
    view: &mut View<'a, F>,
    below: &'a F,
    own: &[Write],
    seen: usize,
    count: usize,
) -> Result<(), Memory>
    requires few { count ≤ length own.now }
    requires some { seen ≤ length own.now }
    requires seen { view.old
        ≡ record { below = F.tuples below.now; own = take seen (map change_of own.now) } }
    ensures seen { OnOk result
        (view.new
        ≡ record { below = F.tuples below.now; own = take count (map change_of own.now) }) }
{
    if count < seen {
        *view = View::new(alloc, below);
        return view.write_all(alloc, &own[..count]);
    }
    view.write_all(alloc, &own[seen..count])
}

/// The number of the first `own` of the writes: `own`, or the length if there are fewer.
#[tactic(auto, using(crate::proofs::Seeing::seen_most))]
pub(crate) fn standing_then(own: u64, writes: &[Write]) -> usize
    ensures few { result ≤ length writes.now }
    ensures same { take result (map change_of writes.now) ≡ take own (map change_of writes.now) }
{
    if own < writes.len() as u64 {
        return own as usize;
    }
    writes.len()
}

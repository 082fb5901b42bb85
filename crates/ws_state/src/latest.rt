//! What stood before the latest update was said.
ghost use Rattle.std.specs.Prelude.{◌≡◌, ◌≤◌, false, true, [], ◌∷◌, length, IfOk, IfSome, IfNone};
ghost use Rattle.ws_state.specs.Returns.{IsKept, IsAnother};

use crate::points::WorldBefore;
use crate::worlds::World;
use base_types::{Memory, NumberList};
use std::alloc::Global;
use std::mem;

/// The latest update that was said: its number, its place among the held updates, and what stood and how many waited before
/// it.
#[derive(Drop)]
pub(crate) struct Latest {
    pub number: u32,
    pub place: usize,
    pub waiting: usize,
    pub world: WorldBefore,
}

impl World {
    /// What stands and how many updates wait before the update with this number, held at this place, runs.
    pub fn latest(&self, alloc: Global, number: u32, place: usize) -> Result<Latest, Memory>
        ensures kept { IfOk result (λ latest. IsKept self.now number latest) }
    {
        Ok(Latest {
            number,
            place,
            waiting: self.waiting.len(),
            world: self.kept(alloc)?,
        })
    }
}

/// Puts `latest` in place of what was kept.
pub(crate) fn keep(kept: &mut Option<Latest>, latest: Option<Latest>)
    ensures kept { kept.new ≡ latest }
{
    drop(mem::replace(kept, latest));
}

/// The latest update, if `numbers` names it alone, at least as many updates wait as before it, and no mapping was declared once
/// more. Nothing is kept from now on.
#[tactic(auto, using(crate::proofs::Returning::none_kept, crate::proofs::Returning::another_kept))]
pub(crate) fn take_latest(
    kept: &mut Option<Latest>,
    numbers: &NumberList,
    waiting: usize,
    redeclared: bool,
) -> Option<Latest>
    ensures some { IfSome result (λ latest. kept.old ≡ Some latest) }
    ensures none { IfNone result (IsAnother numbers.now.items waiting redeclared kept.old) }
{
    let Some(latest) = mem::replace(kept, None) else {
        return None;
    };
    if !is_meant(&latest, numbers, waiting, redeclared) {
        drop(latest);
        return None;
    }
    Some(latest)
}

// Whether `take_latest` may return `latest`.
#[tactic(auto, using(crate::proofs::Returning::not_again, crate::proofs::Returning::not_fewer))]
fn is_meant(latest: &Latest, numbers: &NumberList, waiting: usize, redeclared: bool) -> bool
    ensures meant { numbers.now.items ≡ latest.now.number ∷ [] → latest.now.waiting ≤ waiting
        → redeclared ≡ false → result ≡ true }
{
    if redeclared {
        return false;
    }
    if waiting < latest.waiting {
        return false;
    }
    is_only(numbers.as_slice(), latest.number)
}

#[tactic(auto, using(crate::proofs::Returning::same_number))]
fn is_only(numbers: &[u32], number: u32) -> bool
    ensures only { numbers.now ≡ number ∷ [] → result ≡ true }
{
    numbers == std::slice::from_ref(&number)
}

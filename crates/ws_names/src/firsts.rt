//! Maps from nulls to the first places at which they stand in a list.
ghost use Rattle.std.specs.Prelude.{◌≡◌, OnOk, OnErr};
ghost use Rattle.ws_names.specs.Firsts.{AreSameFirsts, ForgetsFirst, NotesFirst, is_place, place_in};

use base_types::{Memory, Null};
use std::collections::BTreeMap;

/// For each null the first place at which it stands in a list.
pub(crate) type Firsts = BTreeMap<Null, usize>;

/// Notes that the null stands at this place, unless it stands at an earlier one.
#[tactic(auto, using(crate::proofs::Indexed::noted, crate::proofs::Indexed::noted_there, crate::proofs::Indexed::unchanged))]
pub(crate) fn note(firsts: &mut Firsts, null: Null, place: usize) -> Result<(), Memory>
    ensures ok { OnOk result (NotesFirst null place firsts.old firsts.new) }
    ensures err { OnErr result (AreSameFirsts firsts.old firsts.new) }
{
    if firsts.contains_key(&null) {
        return Ok(());
    }
    match firsts.insert(null, place) {
        Ok(_) => Ok(()),
        Err(_) => Err(Memory),
    }
}

/// Forgets that the null stands at this place, unless it stands at an earlier one.
#[tactic(auto, using(crate::proofs::Indexed::forgot, crate::proofs::Indexed::forgot_not))]
pub(crate) fn forget(firsts: &mut Firsts, null: Null, place: usize)
    ensures rest { ForgetsFirst null place firsts.old firsts.new }
{
    if is_at(firsts, null, place) {
        firsts.remove(&null);
    }
}

// Whether this is the first place of the null.
fn is_at(firsts: &Firsts, null: Null, place: usize) -> bool
    ensures at { result ≡ is_place place (place_in firsts.now null) }
{
    match firsts.get(&null) {
        Some(first) => *first == place,
        None => false,
    }
}

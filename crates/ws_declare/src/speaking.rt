//! What mentions a relation or a mapping.

use base_types::Facts;
use ws_lines::Deed;
use ws_space::{Space, speaks_of};
use ws_state::Held;
use ws_written::{Atom, Rule};

fn stands_among(atoms: &[Atom], relation: u32) -> bool {
    for atom in atoms {
        if atom.relation == relation {
            return true;
        }
    }
    false
}

fn rules_speak(rules: &[Rule], relation: u32) -> bool {
    for rule in rules {
        if stands_among(rule.left.as_slice(), relation)
            || stands_among(rule.right.as_slice(), relation)
        {
            return true;
        }
    }
    false
}

fn updates_speak(updates: &[Held], relation: u32) -> bool {
    for held in updates {
        if speaks_of(&held.update.deed, relation) {
            return true;
        }
    }
    false
}

/// Whether a tuple, an update or a mapping mentions the relation with this number.
pub(crate) fn is_spoken_of(space: &Space, relation: usize) -> bool {
    let Ok(number) = u16::try_from(relation) else {
        return false;
    };
    let relation = u32::from(number);
    rules_speak(space.rules.as_slice(), relation)
        || space.state.facts().first(number).is_some()
        || updates_speak(space.state.held().as_slice(), relation)
}

fn names_mapping(deed: &Deed, mapping: u16) -> bool {
    match deed {
        Deed::Fix(other, _) => *other == mapping,
        Deed::Force(other) => *other == mapping,
        Deed::Drop(other) => *other == mapping,
        _ => false,
    }
}

/// The least number of an update, undone or not, that mentions the mapping.
pub(crate) fn speaker_of(space: &Space, mapping: u16) -> Option<u32> {
    let mut least = None;
    for held in space.state.held() {
        if names_mapping(&held.update.deed, mapping) {
            least = Some(least_of(least, held.update.number));
        }
    }
    least
}

fn least_of(least: Option<u32>, number: u32) -> u32 {
    match least {
        Some(least) => least.min(number),
        None => number,
    }
}

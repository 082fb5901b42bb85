//! The checks that a mapping can be declared.

use crate::cycles::cycle_words;
use crate::dropping::is_in_force;
use crate::speaking::speaker_of;
use std::alloc::Global;
use ws_fault::Refusal;
use ws_report::{refuse, refuse_made};
use ws_space::Space;
use ws_written::{Atom, Rule, Term};

/// The greatest number of mappings that are not gone.
const MAPPINGS: usize = 40;

/// The greatest number of variables that are on both sides.
const SHARED: usize = 8;

fn same_term(one: &Term, other: &Term) -> bool {
    match (one, other) {
        (Term::Variable(one), Term::Variable(other)) => one.as_str() == other.as_str(),
        (Term::Number(one), Term::Number(other)) => one == other,
        (Term::Text(one), Term::Text(other)) => one.as_str() == other.as_str(),
        _ => false,
    }
}

fn same_atom(one: &Atom, other: &Atom) -> bool {
    if one.relation != other.relation || one.terms.len() != other.terms.len() {
        return false;
    }
    for (place, term) in one.terms.iter().enumerate() {
        match other.terms.get(place) {
            Some(other) if same_term(term, other) => {}
            _ => return false,
        }
    }
    true
}

fn same_atoms(ones: &[Atom], others: &[Atom]) -> bool {
    if ones.len() != others.len() {
        return false;
    }
    for (place, atom) in ones.iter().enumerate() {
        match others.get(place) {
            Some(other) if same_atom(atom, other) => {}
            _ => return false,
        }
    }
    true
}

/// The name of the relation with this number; empty if there is none.
pub(crate) fn relation_name(space: &Space, relation: u32) -> &str {
    match space.relations.get(relation as usize) {
        Some(declared) => declared.name.as_str(),
        None => "",
    }
}

/// Whether the mapping with this number is gone.
pub(crate) fn is_gone(space: &Space, place: usize) -> bool {
    match u16::try_from(place) {
        Ok(number) => space.state.is_gone(number),
        Err(_) => false,
    }
}

/// Whether this very mapping is declared already and is not gone.
pub(crate) fn is_declared(space: &Space, rule: &Rule) -> bool {
    for (place, other) in space.rules.iter().enumerate() {
        if other.name.as_str() == rule.name.as_str() && !is_gone(space, place) {
            return same_atoms(other.left.as_slice(), rule.left.as_slice())
                && same_atoms(other.right.as_slice(), rule.right.as_slice());
        }
    }
    false
}

/// Refuses a mapping that cannot be declared. In it, each `_` is a variable of its own.
pub(crate) fn check_mapping(alloc: Global, space: &Space, rule: &Rule) -> Result<(), Refusal> {
    check_name(alloc, space, rule.name.as_str())?;
    if MAPPINGS <= count_others(space, rule.name.as_str()) {
        return refuse(alloc, "there are 40 mappings, which is the limit", "");
    }
    if let Some(cycle) = cycle_words(alloc, space, rule)? {
        let name = rule.name.as_str();
        let words = format!(in alloc;
            "mapping {name} closes a circle without an unknown: {cycle}"
        )?;
        let hint = "a circle has to go through a variable that stands on a right side alone";
        return refuse(alloc, words.as_str(), hint);
    }
    if SHARED < count_shared(rule) {
        return refuse(alloc, "more than 8 variables stand on both sides", "");
    }
    Ok(())
}

// Refuses a name unless it is free, or the name of a proposed mapping that no update mentions.
fn check_name(alloc: Global, space: &Space, name: &str) -> Result<(), Refusal> {
    let Some(mapping) = space.mapping(name) else {
        return Ok(());
    };
    if space.state.is_gone(mapping) {
        let words = format!(in alloc; "there was a mapping {name}; its name is free after `fold`");
        return refuse_made(alloc, words, Ok(String::new(alloc)));
    }
    if is_in_force(space, name) {
        let words = format!(in alloc; "mapping {name} is in force");
        return refuse_made(alloc, words, format!(in alloc; "drop {name} takes it away"));
    }
    if let Some(number) = speaker_of(space, mapping) {
        let words = format!(in alloc; "update {number} speaks of mapping {name}");
        let hint = String::from_str(alloc, "take another name, or fold first");
        return refuse_made(alloc, words, hint);
    }
    Ok(())
}

// The number of mappings with other names that are not gone.
fn count_others(space: &Space, name: &str) -> usize {
    let mut count = 0usize;
    for (place, rule) in space.rules.iter().enumerate() {
        if rule.name.as_str() != name && !is_gone(space, place) {
            count = count.saturating_add(1);
        }
    }
    count
}

/// Whether the atom has the variable with this name.
pub(crate) fn stands_in(atom: &Atom, name: &str) -> bool {
    for term in atom.terms.iter() {
        if let Term::Variable(variable) = term {
            if variable.as_str() == name {
                return true;
            }
        }
    }
    false
}

/// Whether one of the atoms has the variable with this name.
pub(crate) fn stands_among(atoms: &[Atom], name: &str) -> bool {
    for atom in atoms {
        if stands_in(atom, name) {
            return true;
        }
    }
    false
}

// The number of the atom's variables that are on the right side too and did not occur before.
fn count_new_shared(rule: &Rule, place: usize, atom: &Atom) -> usize {
    let mut count = 0usize;
    for (column, term) in atom.terms.iter().enumerate() {
        if let Term::Variable(name) = term {
            let name = name.as_str();
            let is_old = stood_above(rule, place, name) || stood_before(atom, column, term);
            if !is_old && stands_among(rule.right.as_slice(), name) {
                count = count.saturating_add(1);
            }
        }
    }
    count
}

// Whether one of the first `count` atoms of the left side has the variable with this name.
fn stood_above(rule: &Rule, count: usize, name: &str) -> bool {
    for atom in rule.left.iter().take(count) {
        if stands_in(atom, name) {
            return true;
        }
    }
    false
}

// Whether one of the first `count` columns of the atom has the term.
fn stood_before(atom: &Atom, count: usize, term: &Term) -> bool {
    for other in atom.terms.iter().take(count) {
        if same_term(other, term) {
            return true;
        }
    }
    false
}

// The number of variables that are on both sides.
fn count_shared(rule: &Rule) -> usize {
    let mut count = 0usize;
    for (place, atom) in rule.left.iter().enumerate() {
        count = count.saturating_add(count_new_shared(rule, place, atom));
    }
    count
}

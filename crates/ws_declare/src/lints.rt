//! Hints about a mapping that is declared.

use crate::mappings::{relation_name, stands_among, stands_in};
use base_types::{Facts, List, Value};
use def_memory::Memory;
use std::alloc::Global;
use ws_print::{Text, add_atom};
use ws_report::Note;
use ws_space::Space;
use ws_written::{Atom, Rule, Term};

/// The hints about a mapping in which each `_` is a variable of its own. One is about a variable that occurs once and whose name
/// is a text of its column; the other is about an atom of the right side that shares no variable with the left side.
pub(crate) fn lints_of(alloc: Global, space: &Space, rule: &Rule) -> Result<Vec<Note>, Memory> {
    let mut notes = Vec::new(alloc);
    for atom in rule.left.iter() {
        add_lone(alloc, space, rule, atom, &mut notes)?;
    }
    for atom in rule.right.iter() {
        add_lone(alloc, space, rule, atom, &mut notes)?;
    }
    add_unlinked(alloc, space, rule, &mut notes)?;
    Ok(notes)
}

fn count_in(atoms: &[Atom], name: &str) -> usize {
    let mut count = 0usize;
    for atom in atoms {
        for term in atom.terms.iter() {
            if let Term::Variable(other) = term {
                if other.as_str() == name {
                    count = count.saturating_add(1);
                }
            }
        }
    }
    count
}

fn stands_once(rule: &Rule, name: &str) -> bool {
    let left = count_in(rule.left.as_slice(), name);
    left.saturating_add(count_in(rule.right.as_slice(), name)) == 1
}

// Whether some tuple has the text in the column.
fn is_text_of(
    alloc: Global,
    space: &Space,
    relation: u32,
    column: usize,
    text: &str,
) -> Result<bool, Memory> {
    let (Ok(relation), Ok(column)) = (u16::try_from(relation), u16::try_from(column)) else {
        return Ok(false);
    };
    let mut bytes = Vec::new(alloc);
    bytes.extend_from_slice(text.as_bytes())?;
    let value = Value::Word(List::from_vec(bytes));
    let facts = space.state.facts();
    Ok(facts.scan(relation, column, &value, None).is_some())
}

// Adds a hint for each variable of the atom that occurs once in the mapping and whose name is a text of its column.
fn add_lone(
    alloc: Global,
    space: &Space,
    rule: &Rule,
    atom: &Atom,
    notes: &mut Vec<Note>,
) -> Result<(), Memory> {
    for (column, term) in atom.terms.iter().enumerate() {
        let Term::Variable(name) = term else {
            continue;
        };
        let name = name.as_str();
        if stands_once(rule, name) && is_text_of(alloc, space, atom.relation, column, name)? {
            let relation = relation_name(space, atom.relation);
            let words = format!(in alloc;
                "the variable {name} of {relation} stands for any value; for the text write \"{name}\""
            )?;
            notes.push(Note::of(alloc, words))?;
        }
    }
    Ok(())
}

fn has_variable(atom: &Atom) -> bool {
    for term in atom.terms.iter() {
        if let Term::Variable(_) = term {
            return true;
        }
    }
    false
}

// Whether the atom has a variable in common with one of the others.
fn share(one: &Atom, others: &[Atom]) -> bool {
    for term in one.terms.iter() {
        if let Term::Variable(name) = term {
            if stands_among(others, name.as_str()) {
                return true;
            }
        }
    }
    false
}

fn share_two(one: &Atom, other: &Atom) -> bool {
    for term in one.terms.iter() {
        if let Term::Variable(name) = term {
            if stands_in(other, name.as_str()) {
                return true;
            }
        }
    }
    false
}

// Whether the atom shares a variable with a linked one.
fn is_reached(atoms: &[Atom], linked: &[bool], atom: &Atom) -> bool {
    for (place, other) in atoms.iter().enumerate() {
        if linked.get(place).copied() == Some(true) && share_two(atom, other) {
            return true;
        }
    }
    false
}

// For each atom of the right side: whether it has no variable, or shares one with the left side, directly or through other atoms.
fn linked_of(alloc: Global, rule: &Rule) -> Result<Vec<bool>, Memory> {
    let right = rule.right.as_slice();
    let mut linked = directly_linked(alloc, rule)?;
    for _ in right {
        linked = further_linked(alloc, right, linked.as_slice())?;
    }
    Ok(linked)
}

// For each atom of the right side: whether it has no variable, or shares one with the left side directly.
fn directly_linked(alloc: Global, rule: &Rule) -> Result<Vec<bool>, Memory> {
    let mut linked = Vec::new(alloc);
    for atom in rule.right.iter() {
        linked.push(share(atom, rule.left.as_slice()) || !has_variable(atom))?;
    }
    Ok(linked)
}

// The linked atoms, with those that share a variable with one of them.
fn further_linked(alloc: Global, atoms: &[Atom], linked: &[bool]) -> Result<Vec<bool>, Memory> {
    let mut further = Vec::new(alloc);
    for (place, atom) in atoms.iter().enumerate() {
        let is_linked = linked.get(place).copied() == Some(true);
        further.push(is_linked || is_reached(atoms, linked, atom))?;
    }
    Ok(further)
}

fn add_unlinked(
    alloc: Global,
    space: &Space,
    rule: &Rule,
    notes: &mut Vec<Note>,
) -> Result<(), Memory> {
    let linked = linked_of(alloc, rule)?;
    for (place, atom) in rule.right.iter().enumerate() {
        if linked.get(place).copied() == Some(false) {
            notes.push(Note::of(alloc, unlinked_words(alloc, space, atom)?))?;
        }
    }
    Ok(())
}

fn unlinked_words(alloc: Global, space: &Space, atom: &Atom) -> Result<String, Memory> {
    let mut words = Text::new(alloc);
    add_atom(&mut words, space.relations.as_slice(), atom);
    words.push_str(" shares no variable with the left side: any tuple of ");
    words.push_str(relation_name(space, atom.relation));
    words.push_str(" will do");
    Ok(words.done()?)
}

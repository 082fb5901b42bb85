//! Relations, atoms and mappings.

use crate::escapes::add_quoted;
use crate::texts::Text;
use crate::values::add_comma;
use std::fmt::Write;
use ws_written::{Atom, Relation, Rule, Term};

/// Adds the name of the relation of this number; nothing if there is none.
pub(crate) fn add_name(out: &mut Text, relations: &[Relation], number: u32) {
    match relations.get(number as usize) {
        Some(relation) => out.push_str(relation.name.as_str()),
        None => (),
    }
}

/// Adds a relation with its columns: `NAME(COLUMN*, ..)`.
pub fn add_form(out: &mut Text, relation: &Relation) {
    out.push_str(relation.name.as_str());
    out.push('(');
    for (place, column) in relation.columns.iter().enumerate() {
        add_comma(out, place);
        out.push_str(column.name.as_str());
        if column.key {
            out.push('*');
        }
    }
    out.push(')')
}

fn add_term(out: &mut Text, term: &Term) {
    match term {
        Term::Variable(name) => out.push_str(name.as_str()),
        Term::Number(number) => write!(out, "{number}"),
        Term::Text(text) => add_quoted(out, text.as_str()),
    }
}

/// Adds an atom.
pub fn add_atom(out: &mut Text, relations: &[Relation], atom: &Atom) {
    add_name(out, relations, atom.relation);
    out.push('(');
    for (place, term) in atom.terms.iter().enumerate() {
        add_comma(out, place);
        add_term(out, term);
    }
    out.push(')')
}

/// Adds atoms, with commas between them.
pub fn add_atoms(out: &mut Text, relations: &[Relation], atoms: &[Atom]) {
    for (place, atom) in atoms.iter().enumerate() {
        add_comma(out, place);
        add_atom(out, relations, atom);
    }
}

/// Adds a mapping: `NAME: ATOM, .. -> ATOM, ..`.
pub fn add_rule(out: &mut Text, relations: &[Relation], rule: &Rule) {
    out.push_str(rule.name.as_str());
    out.push_str(": ");
    add_atoms(out, relations, rule.left.as_slice());
    out.push_str(" -> ");
    add_atoms(out, relations, rule.right.as_slice())
}

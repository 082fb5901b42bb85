//! The rows of a relation that a command means.

use base_types::{Memory, Tuple, Value};
use std::alloc::Global;
use ws_command::Paging;
use ws_print::{Text, add_cell};
use ws_space::{Space, has_unknown};
use ws_written::{Atom, Term, Value as Said};

/// The tuples, within and in order, that match the atom.
pub(crate) fn matched(alloc: Global, space: &Space, atom: &Atom) -> Result<Vec<Tuple>, Memory> {
    let mut columns = Vec::new(alloc);
    for term in &atom.terms {
        columns.push(constant(alloc, space, term)?)?;
    }
    let relation = u16::try_from(atom.relation).unwrap_or(u16::MAX);
    let mut tuples = space.fitting(alloc, relation, columns.as_slice())?;
    tuples.retain(|tuple| agrees(atom, tuple));
    Ok(tuples)
}

fn constant(alloc: Global, space: &Space, term: &Term) -> Result<Option<Value>, Memory> {
    match term {
        Term::Variable(_) => Ok(None),
        Term::Number(number) => Ok(Some(Value::Int(*number))),
        Term::Text(text) => {
            let text = Said::Text(String::from_str(alloc, text.as_str())?);
            space.within_value(alloc, &text)
        }
    }
}

// Whether each variable has the same value everywhere.
fn agrees(atom: &Atom, tuple: &Tuple) -> bool {
    for (place, term) in atom.terms.iter().enumerate() {
        if !agrees_with(atom, tuple, term, tuple.values.get(place)) {
            return false;
        }
    }
    true
}

// Whether this value is in each place that has the term, if the term is a variable.
fn agrees_with(atom: &Atom, tuple: &Tuple, term: &Term, value: Option<&Value>) -> bool {
    for (place, other) in atom.terms.iter().enumerate() {
        if is_one_variable(term, other) && tuple.values.get(place) != value {
            return false;
        }
    }
    true
}

fn is_one_variable(term: &Term, other: &Term) -> bool {
    match (term, other) {
        (Term::Variable(name), Term::Variable(same)) => {
            name.as_str() != "_" && name.as_str() == same.as_str()
        }
        _ => false,
    }
}

/// The tuples; with `--unknowns`, only the tuples that have an unknown.
pub(crate) fn uncertain(tuples: Vec<Tuple>, paging: &Paging) -> Vec<Tuple> {
    let mut tuples = tuples;
    if paging.unknowns {
        tuples.retain(|tuple| has_unknown(tuple));
    }
    tuples
}

/// The tuples; with `--like`, only the tuples with its text in a cell.
pub(crate) fn alike(
    alloc: Global,
    space: &Space,
    tuples: Vec<Tuple>,
    paging: &Paging,
) -> Result<Vec<Tuple>, Memory> {
    match &paging.like {
        Some(like) => having(alloc, space, tuples, like.as_str()),
        None => Ok(tuples),
    }
}

fn having(
    alloc: Global,
    space: &Space,
    tuples: Vec<Tuple>,
    like: &str,
) -> Result<Vec<Tuple>, Memory> {
    let like = like.to_lowercase(alloc)?;
    let mut found = Vec::new(alloc);
    for tuple in tuples {
        if has_text(alloc, space, &tuple, like.as_str())? {
            found.push(tuple)?;
        }
    }
    Ok(found)
}

// Whether a cell, as it is shown, contains the text, ignoring capitals.
fn has_text(alloc: Global, space: &Space, tuple: &Tuple, like: &str) -> Result<bool, Memory> {
    let fact = space.shown(alloc, tuple)?;
    for value in &fact.values {
        if cell_text(alloc, value)?.as_str().contains(like) {
            return Ok(true);
        }
    }
    Ok(false)
}

fn cell_text(alloc: Global, value: &Said) -> Result<String, Memory> {
    let mut cell = Text::new(alloc);
    add_cell(&mut cell, value);
    let cell = cell.done()?;
    Ok(cell.as_str().to_lowercase(alloc)?)
}

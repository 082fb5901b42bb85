//! A variable of its own for each `_` of a mapping.

use std::alloc::{AllocError, Global};
use std::mem;
use ws_written::{Atom, Rule, Term};

fn is_variable(term: &Term, name: &str) -> bool {
    match term {
        Term::Variable(variable) => variable.as_str() == name,
        _ => false,
    }
}

fn has_variable(atoms: &[Atom], name: &str) -> bool {
    for atom in atoms {
        for term in atom.terms.iter() {
            if is_variable(term, name) {
                return true;
            }
        }
    }
    false
}

fn is_taken(rule: &Rule, name: &str) -> bool {
    has_variable(rule.left.as_slice(), name) || has_variable(rule.right.as_slice(), name)
}

// The name `_i`, with one more `_` in front as long as the mapping has the name already.
fn free_name(alloc: Global, rule: &Rule, number: u32) -> Result<String, AllocError> {
    let mut name = format!(in alloc; "_{number}")?;
    for _ in 0..u64::MAX {
        if !is_taken(rule, name.as_str()) {
            break;
        }
        name = format!(in alloc; "_{name}")?;
    }
    Ok(name)
}

fn count_blanks(atoms: &[Atom]) -> u32 {
    let mut count = 0u32;
    for atom in atoms {
        for term in atom.terms.iter() {
            if is_variable(term, "_") {
                count = count.saturating_add(1);
            }
        }
    }
    count
}

// Puts the names in the places of the `_`s; the last name comes first.
fn name_blanks(atoms: &mut [Atom], names: &mut Vec<String>) {
    for atom in atoms.iter_mut() {
        for term in atom.terms.iter_mut() {
            if is_variable(term, "_") {
                if let Some(name) = names.pop() {
                    drop(mem::replace(term, Term::Variable(name)));
                }
            }
        }
    }
}

/// Makes each `_` of the mapping a variable of its own: the i-th is `_i`, with one more `_` in front as long as the name is
/// taken. After an error the mapping is unchanged.
pub fn set_apart(alloc: Global, rule: &mut Rule) -> Result<(), AllocError> {
    let left = count_blanks(rule.left.as_slice());
    let count = left.saturating_add(count_blanks(rule.right.as_slice()));
    let mut names = Vec::new(alloc);
    for number in 1..=count {
        names.push(free_name(alloc, rule, number)?)?;
    }
    names.reverse();
    name_blanks(rule.left.as_mut_slice(), &mut names);
    name_blanks(rule.right.as_mut_slice(), &mut names);
    Ok(())
}

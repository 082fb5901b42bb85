//! Copies of values, tuples and mappings as they are said.

use base_types::Memory;
use std::alloc::Global;
use ws_command::Pattern;
use ws_written::{Atom, Fact, Rule, Term, Value};

/// A copy of a value.
pub fn copy_value(alloc: Global, value: &Value) -> Result<Value, Memory> {
    Ok(match value {
        Value::Number(number) => Value::Number(*number),
        Value::Text(text) => Value::Text(String::from_str(alloc, text.as_str())?),
        Value::Unknown(unknown) => Value::Unknown(*unknown),
        Value::Strange(name) => Value::Strange(String::from_str(alloc, name.as_str())?),
    })
}

/// A copy of a tuple.
pub fn copy_fact(alloc: Global, fact: &Fact) -> Result<Fact, Memory> {
    let mut values = Vec::new(alloc);
    for value in &fact.values {
        values.push(copy_value(alloc, value)?)?;
    }
    Ok(Fact {
        relation: fact.relation,
        values,
    })
}

/// The tuple that a pattern stands for; None if it has a `_`.
pub fn plain_fact(alloc: Global, pattern: &Pattern) -> Result<Option<Fact>, Memory> {
    let mut values = Vec::new(alloc);
    for value in &pattern.values {
        match value {
            Some(value) => values.push(copy_value(alloc, value)?)?,
            None => return Ok(None),
        }
    }
    Ok(Some(Fact {
        relation: pattern.relation,
        values,
    }))
}

/// A copy of a mapping.
pub(crate) fn copy_rule(alloc: Global, rule: &Rule) -> Result<Rule, Memory> {
    Ok(Rule {
        name: String::from_str(alloc, rule.name.as_str())?,
        left: copy_atoms(alloc, rule.left.as_slice())?,
        right: copy_atoms(alloc, rule.right.as_slice())?,
    })
}

/// Copies of mappings.
pub(crate) fn copy_rules(alloc: Global, rules: &[Rule]) -> Result<Vec<Rule>, Memory> {
    let mut copies = Vec::new(alloc);
    for rule in rules {
        copies.push(copy_rule(alloc, rule)?)?;
    }
    Ok(copies)
}

fn copy_atoms(alloc: Global, atoms: &[Atom]) -> Result<Vec<Atom>, Memory> {
    let mut copies = Vec::new(alloc);
    for atom in atoms {
        copies.push(copy_atom(alloc, atom)?)?;
    }
    Ok(copies)
}

fn copy_atom(alloc: Global, atom: &Atom) -> Result<Atom, Memory> {
    let mut terms = Vec::new(alloc);
    for term in &atom.terms {
        terms.push(copy_term(alloc, term)?)?;
    }
    Ok(Atom {
        relation: atom.relation,
        terms,
    })
}

fn copy_term(alloc: Global, term: &Term) -> Result<Term, Memory> {
    Ok(match term {
        Term::Variable(name) => Term::Variable(String::from_str(alloc, name.as_str())?),
        Term::Number(number) => Term::Number(*number),
        Term::Text(text) => Term::Text(String::from_str(alloc, text.as_str())?),
    })
}

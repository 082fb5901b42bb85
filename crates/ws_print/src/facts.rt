//! Tuples.

use crate::rules::add_name;
use crate::texts::Text;
use crate::values::{add_comma, add_new_value, add_value, add_values};
use ws_command::Pattern;
use ws_written::{Fact, NewFact, Relation};

/// Adds a tuple.
pub fn add_fact(out: &mut Text, relations: &[Relation], fact: &Fact) {
    add_name(out, relations, fact.relation);
    out.push('(');
    add_values(out, fact.values.as_slice());
    out.push(')')
}

/// Adds tuples, with commas between them.
pub fn add_facts(out: &mut Text, relations: &[Relation], facts: &[Fact]) {
    for (place, fact) in facts.iter().enumerate() {
        add_comma(out, place);
        add_fact(out, relations, fact);
    }
}

/// Adds a tuple that is to be inserted.
pub fn add_new_fact(out: &mut Text, relations: &[Relation], fact: &NewFact) {
    add_name(out, relations, fact.relation);
    out.push('(');
    for (place, value) in fact.values.iter().enumerate() {
        add_comma(out, place);
        add_new_value(out, value);
    }
    out.push(')')
}

/// Adds tuples that are to be inserted, with commas between them.
pub fn add_new_facts(out: &mut Text, relations: &[Relation], facts: &[NewFact]) {
    for (place, fact) in facts.iter().enumerate() {
        add_comma(out, place);
        add_new_fact(out, relations, fact);
    }
}

/// Adds a tuple in which `_` may stand.
pub fn add_pattern(out: &mut Text, relations: &[Relation], pattern: &Pattern) {
    add_name(out, relations, pattern.relation);
    out.push('(');
    for (place, value) in pattern.values.iter().enumerate() {
        add_comma(out, place);
        match value {
            Some(known) => add_value(out, known),
            None => out.push('_'),
        }
    }
    out.push(')')
}

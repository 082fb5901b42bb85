//! `replace`, for an unknown and for a tuple.

use crate::deleting::near_lines;
use crate::fitting::fitting_facts;
use crate::names::{check_fact, check_new_fact, is_there, same_fact, same_value};
use crate::single::single;
use def_memory::Memory;
use std::alloc::Global;
use ws_command::{Bounds, Pattern, Replacement};
use ws_fault::Refusal;
use ws_hint::known_fact;
use ws_print::{Lines, Text, add_pattern, add_update};
use ws_question::count_text;
use ws_report::{Done, joined, refuse, refuse_with, said_text};
use ws_space::{Space, copy_value};
use ws_written::{Fact, NewFact, NewValue, Unknown, Update, Value};

/// The greatest number of fitting tuples that are listed.
const TOLD: usize = 3;

fn nothing_to_do(alloc: Global, space: &Space, update: &Update) -> Result<Done, Refusal> {
    let mut line = Text::new(alloc);
    add_update(&mut line, space.relations.as_slice(), update);
    let line = line.done()?;
    Ok(Done::nothing(alloc, "nothing to do", line))
}

/// Replaces an unknown by a value. It is refused if one of them is an unknown that is not there.
pub fn fill(
    alloc: Global,
    space: &mut Space,
    unknown: &Value,
    value: Value,
    bounds: &Bounds,
) -> Result<Done, Refusal> {
    match filled(alloc, space, unknown, &value) {
        Ok(unknown) => changed(alloc, space, Update::Fill(unknown, value), bounds),
        Err(refusal) => Err(refusal),
    }
}

// The unknown that is to be replaced by the value.
fn filled(
    alloc: Global,
    space: &Space,
    unknown: &Value,
    value: &Value,
) -> Result<Unknown, Refusal> {
    let unknown = space.unknown(alloc, unknown)?;
    space.check(alloc, value)?;
    Ok(unknown)
}

// Takes the update, unless it would replace something by itself.
fn changed(
    alloc: Global,
    space: &mut Space,
    update: Update,
    bounds: &Bounds,
) -> Result<Done, Refusal> {
    match is_idle(alloc, &update) {
        Ok(true) => nothing_to_do(alloc, space, &update),
        Ok(false) => single(alloc, space, update, bounds),
        Err(_) => {
            drop(update);
            Err(Refusal::Memory)
        }
    }
}

// Whether the update replaces something by itself.
fn is_idle(alloc: Global, update: &Update) -> Result<bool, Memory> {
    match update {
        Update::Fill(unknown, value) => Ok(same_value(&Value::Unknown(*unknown), value)),
        Update::Change(old, new) => match known_fact(alloc, new)? {
            Some(known) => Ok(same_fact(old, &known)),
            None => Ok(false),
        },
        _ => Ok(false),
    }
}

/// Replaces a tuple by another. It is refused if not exactly one tuple fits the first pattern, if that tuple is not there, or if
/// an unknown is not there.
pub fn replace(
    alloc: Global,
    space: &mut Space,
    old: &Pattern,
    new: &Replacement,
    bounds: &Bounds,
) -> Result<Done, Refusal> {
    let old = one_fact(alloc, space, old)?;
    let new = replacement(alloc, &old, new)?;
    check_fact(alloc, space, &old)?;
    check_new_fact(alloc, space, &new)?;
    if !is_there(alloc, space, &old)? {
        return refuse_absent(alloc, space, &old);
    }
    changed(alloc, space, Update::Change(old, new), bounds)
}

// The only tuple that the pattern stands for. It is refused if there is none, or more than one.
fn one_fact(alloc: Global, space: &Space, pattern: &Pattern) -> Result<Fact, Refusal> {
    let mut facts = fitting_facts(alloc, space, pattern)?;
    if facts.len() == 1 {
        if let Some(fact) = facts.pop() {
            return Ok(fact);
        }
    }
    refuse_several(alloc, space, pattern, facts.as_slice())
}

// Refuses a pattern that fits these tuples, and lists the first of them.
fn refuse_several(
    alloc: Global,
    space: &Space,
    pattern: &Pattern,
    facts: &[Fact],
) -> Result<Fact, Refusal> {
    let mut words = Text::new(alloc);
    add_pattern(&mut words, space.relations.as_slice(), pattern);
    words.push_str(" fits ");
    words.made(count_text(alloc, facts.len(), "tuple"));
    let words = words.done()?;
    let mut texts = Lines::new(alloc);
    for fact in facts.iter().take(TOLD) {
        texts.made(said_text(alloc, space, fact));
    }
    refuse_with(alloc, words.as_str(), "", texts.done()?)
}

// Whether the replacement has a `_`.
fn keeps_some(new: &Replacement) -> bool {
    for value in new.values.iter() {
        if value.is_none() {
            return true;
        }
    }
    false
}

// The tuple that comes; `_` keeps the value of the old one.
fn replacement(alloc: Global, old: &Fact, new: &Replacement) -> Result<NewFact, Refusal> {
    if old.relation != new.relation && keeps_some(new) {
        return refuse(alloc, "_ keeps a value of the same relation", "");
    }
    let mut values = Vec::new(alloc);
    for (column, value) in new.values.iter().enumerate() {
        match value {
            Some(value) => values.push(copy_new_value(alloc, value)?)?,
            None => {
                if let Some(kept) = old.values.get(column) {
                    values.push(NewValue::Known(copy_value(alloc, kept)?))?;
                }
            }
        }
    }
    Ok(NewFact {
        relation: new.relation,
        values,
    })
}

fn copy_new_value(alloc: Global, value: &NewValue) -> Result<NewValue, Memory> {
    Ok(match value {
        NewValue::Known(known) => NewValue::Known(copy_value(alloc, known)?),
        NewValue::Fresh => NewValue::Fresh,
        NewValue::Named(name) => NewValue::Named(String::from_str(alloc, name.as_str())?),
    })
}

// Refuses a tuple that is not there, and lists tuples that resemble it.
fn refuse_absent(alloc: Global, space: &Space, fact: &Fact) -> Result<Done, Refusal> {
    let text = said_text(alloc, space, fact)?;
    let words = format!(in alloc; "{text} is not there")?;
    let near = near_lines(alloc, space, Some(fact))?;
    let hint = joined(alloc, near.as_slice(), "; ")?;
    refuse(alloc, words.as_str(), hint.as_str())
}

//! Values and tuples by their names: whether they are there, and whether two are the same.

use def_memory::Memory;
use std::alloc::Global;
use ws_fault::Refusal;
use ws_space::Space;
use ws_written::{Fact, NewFact, NewValue, Value};

/// Refuses a tuple with an unknown that is not there.
pub(crate) fn check_fact(alloc: Global, space: &Space, fact: &Fact) -> Result<(), Refusal> {
    for value in fact.values.iter() {
        space.check(alloc, value)?;
    }
    Ok(())
}

/// Refuses a tuple that names an unknown which is not there.
pub(crate) fn check_new_fact(alloc: Global, space: &Space, fact: &NewFact) -> Result<(), Refusal> {
    for value in fact.values.iter() {
        if let NewValue::Known(known) = value {
            space.check(alloc, known)?;
        }
    }
    Ok(())
}

/// Whether the tuple is there.
pub(crate) fn is_there(alloc: Global, space: &Space, fact: &Fact) -> Result<bool, Memory> {
    match space.within(alloc, fact)? {
        Some(tuple) => Ok(space.has(&tuple)),
        None => Ok(false),
    }
}

/// Whether two values are the same.
pub(crate) fn same_value(one: &Value, other: &Value) -> bool {
    match (one, other) {
        (Value::Number(one), Value::Number(other)) => one == other,
        (Value::Text(one), Value::Text(other)) => one.as_str() == other.as_str(),
        (Value::Unknown(one), Value::Unknown(other)) => one == other,
        _ => false,
    }
}

/// Whether two tuples are the same.
pub(crate) fn same_fact(one: &Fact, other: &Fact) -> bool {
    if one.relation != other.relation || one.values.len() != other.values.len() {
        return false;
    }
    for (place, value) in one.values.iter().enumerate() {
        match other.values.get(place) {
            Some(other) if same_value(value, other) => {}
            _ => return false,
        }
    }
    true
}

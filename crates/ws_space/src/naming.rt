//! From the state's values and tuples to the said form, and back.

use crate::spaces::Space;
use crate::texts::{bytes_of, small, string_of};
use base_types::{Memory, Null, Tuple, TupleList, Value, ValueList};
use std::alloc::Global;
use ws_written::{Fact, Unknown, Value as Said};

// The name of no unknown: places count from 1.
const NOBODY: Null = Null {
    update: 0,
    attempt: 0,
    place: 0,
};

/// The unknown that has this name in the state.
pub fn unknown_of(name: Null) -> Unknown {
    Unknown {
        update: name.update,
        place: name.place,
    }
}

/// The state's name for an unknown.
pub fn null_of(unknown: Unknown) -> Null {
    Null {
        update: unknown.update,
        attempt: 0,
        place: unknown.place,
    }
}

/// Whether the value is an unknown.
pub fn is_unknown(value: &Value) -> bool {
    match value {
        Value::Null(_) => true,
        _ => false,
    }
}

/// Whether the tuple has an unknown.
pub fn has_unknown(tuple: &Tuple) -> bool {
    for value in tuple.values.as_slice() {
        if is_unknown(value) {
            return true;
        }
    }
    false
}

/// The said form of a value by names.
pub(crate) fn said_value(alloc: Global, value: &Value) -> Result<Said, Memory> {
    Ok(match value {
        Value::Int(number) => Said::Number(*number),
        Value::Word(word) => Said::Text(string_of(alloc, word.as_slice())?),
        Value::Null(name) => Said::Unknown(unknown_of(*name)),
    })
}

/// The said form of a tuple by names.
pub(crate) fn said_fact(alloc: Global, tuple: &Tuple) -> Result<Fact, Memory> {
    Ok(Fact {
        relation: u32::from(tuple.relation),
        values: said_values(alloc, tuple.values.as_slice())?,
    })
}

/// The said form of values by names.
pub(crate) fn said_values(alloc: Global, values: &[Value]) -> Result<Vec<Said>, Memory> {
    let mut said = Vec::new(alloc);
    said.reserve(values.len())?;
    for value in values {
        said.push(said_value(alloc, value)?)?;
    }
    Ok(said)
}

/// The said form of tuples by names.
pub(crate) fn said_facts(alloc: Global, tuples: &[Tuple]) -> Result<Vec<Fact>, Memory> {
    let mut facts = Vec::new(alloc);
    add_said_facts(alloc, &mut facts, tuples)?;
    Ok(facts)
}

/// Adds the said form of tuples by names.
pub(crate) fn add_said_facts(
    alloc: Global,
    facts: &mut Vec<Fact>,
    tuples: &[Tuple],
) -> Result<(), Memory> {
    facts.reserve(tuples.len())?;
    for tuple in tuples {
        facts.push(said_fact(alloc, tuple)?)?;
    }
    Ok(())
}

/// The form by names of a said value.
pub(crate) fn named_value(alloc: Global, value: &Said) -> Result<Value, Memory> {
    Ok(match value {
        Said::Number(number) => Value::Int(*number),
        Said::Text(text) => Value::Word(bytes_of(alloc, text.as_str())?),
        Said::Unknown(unknown) => Value::Null(null_of(*unknown)),
        Said::Strange(_) => Value::Null(NOBODY),
    })
}

/// The form by names of said values.
pub(crate) fn named_values(alloc: Global, values: &[Said]) -> Result<ValueList, Memory> {
    let mut named = ValueList::new(alloc);
    named.reserve(values.len())?;
    for value in values {
        named.push(named_value(alloc, value)?)?;
    }
    Ok(named)
}

/// The form by names of a said tuple.
pub(crate) fn named_tuple(alloc: Global, fact: &Fact) -> Result<Tuple, Memory> {
    let values = named_values(alloc, fact.values.as_slice())?;
    Tuple::new(alloc, small(fact.relation), values)
}

/// The form by names of said tuples.
pub(crate) fn named_tuples(alloc: Global, facts: &[Fact]) -> Result<TupleList, Memory> {
    let mut tuples = TupleList::new(alloc);
    tuples.reserve(facts.len())?;
    for fact in facts {
        tuples.push(named_tuple(alloc, fact)?)?;
    }
    Ok(tuples)
}

impl Space {
    /// The said form of a tuple by names.
    pub fn fact(&self, alloc: Global, tuple: &Tuple) -> Result<Fact, Memory> {
        said_fact(alloc, tuple)
    }

    /// The said form of a value by names.
    pub fn value(&self, alloc: Global, value: &Value) -> Result<Said, Memory> {
        said_value(alloc, value)
    }

    /// The form by names of a said tuple.
    pub fn tuple(&self, alloc: Global, fact: &Fact) -> Result<Tuple, Memory> {
        named_tuple(alloc, fact)
    }
}

//! The violations of a mapping, and which of them are still there.

use base_types::{Binding, Memory, TryCopy, Tuple, Value, ValueList};
use chase_match::{extends, first_match};
use std::alloc::Global;
use std::collections::BTreeSet;
use ws_lines::Deed;
use ws_run::shared_variables;
use ws_space::{Space, unknown_of};

// Here a repair is a tuple: its relation is the number of the mapping, its values are by names, for the variables on both sides.

/// The repairs of a mapping that wait.
pub(crate) fn waiting_repairs(
    alloc: Global,
    space: &Space,
    mapping: u16,
) -> Result<BTreeSet<Tuple>, Memory> {
    let mut repairs = BTreeSet::new(alloc);
    for waiting in space.state.waiting().as_slice() {
        let Some(held) = space.state.held().get(waiting.held) else {
            continue;
        };
        if let Deed::Fix(other, values) = &held.update.deed {
            if *other == mapping {
                repairs.insert(Tuple::new(alloc, mapping, values.copy(alloc)?)?)?;
            }
        }
    }
    Ok(repairs)
}

/// The repairs that the violations of a mapping need, without the repairs that wait, in order.
pub(crate) fn open_repairs(
    alloc: Global,
    space: &Space,
    mapping: u16,
    waiting: &BTreeSet<Tuple>,
) -> Result<Vec<Tuple>, Memory> {
    let violations = space.violations(alloc, mapping)?;
    let mut repairs = Vec::new(alloc);
    for violation in violations.iter() {
        let repair = repair_of(alloc, space, mapping, violation.values.as_slice())?;
        if !waiting.contains(&repair) {
            repairs.push(repair)?;
        }
    }
    Ok(repairs)
}

// The repair for the violation of a mapping with these values.
fn repair_of(
    alloc: Global,
    space: &Space,
    mapping: u16,
    violation: &[Value],
) -> Result<Tuple, Memory> {
    let mut values = ValueList::new(alloc);
    for value in violation {
        values.push(space.state.names().value(alloc, value)?)?;
    }
    Tuple::new(alloc, mapping, values)
}

// The value within of a value by its name; None if it is not there.
fn within(alloc: Global, space: &Space, value: &Value) -> Result<Option<Value>, Memory> {
    match value {
        Value::Null(name) => Ok(space.within_unknown(unknown_of(*name))),
        other => Ok(Some(other.copy(alloc)?)),
    }
}

/// Whether the violation is still there that the repair is for.
pub(crate) fn is_violated(alloc: Global, space: &Space, repair: &Tuple) -> Result<bool, Memory> {
    let Some(mapping) = space.state.mappings().get(usize::from(repair.relation)) else {
        return Ok(false);
    };
    let variables = shared_variables(alloc, mapping)?;
    let Some(binding) = binding_of(alloc, space, variables.as_slice(), repair)? else {
        return Ok(false);
    };
    let facts = space.state.facts();
    if first_match(alloc, &mapping.left, facts, &binding)?.is_none() {
        return Ok(false);
    }
    Ok(!extends(alloc, &binding, &mapping.right, facts)?)
}

// The variables bound to the values of the repair; None if one of the values is not there.
fn binding_of(
    alloc: Global,
    space: &Space,
    variables: &[u16],
    repair: &Tuple,
) -> Result<Option<Binding>, Memory> {
    let mut binding = Binding::new(alloc);
    for (place, value) in repair.values.as_slice().iter().enumerate() {
        let Some(variable) = variables.get(place) else {
            break;
        };
        match within(alloc, space, value)? {
            Some(value) => binding.set(*variable, value)?,
            None => return Ok(None),
        }
    }
    Ok(Some(binding))
}

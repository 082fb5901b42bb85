//! The image of a mapping's left side that makes it want a tuple.

use crate::hidden::shared_variables;
use base_types::{Binding, Facts, Mapping, Memory, TryCopy, TupleList, Value};
use chase_match::first_match;
use std::alloc::Global;

/// The least image of the mapping's left side if its shared variables (`shared_variables`) have these values; empty if there is
/// no match.
pub fn image_for<F: Facts>(
    alloc: Global,
    mapping: &Mapping,
    values: &[Value],
    facts: &F,
) -> Result<TupleList, Memory> {
    let shared = shared_variables(alloc, mapping)?;
    let mut binding = Binding::new(alloc);
    for (variable, value) in shared.iter().zip(values) {
        binding.set(*variable, value.copy(alloc)?)?;
    }
    match first_match(alloc, &mapping.left, facts, &binding)? {
        Some(matched) => Ok(matched.image),
        None => Ok(TupleList::new(alloc)),
    }
}

//! The tuples that patterns stand for.

use base_types::Tuple;
use def_memory::Memory;
use std::alloc::Global;
use ws_command::Pattern;
use ws_fault::Refusal;
use ws_space::{Space, plain_fact};
use ws_written::Fact;

/// The tuples that a pattern stands for, in order. A pattern without `_` stands for itself. One with `_` is refused if it names
/// an unknown that is not there.
pub(crate) fn fitting_facts(
    alloc: Global,
    space: &Space,
    pattern: &Pattern,
) -> Result<Vec<Fact>, Refusal> {
    if let Some(fact) = plain_fact(alloc, pattern)? {
        let mut facts = Vec::new(alloc);
        facts.push(fact)?;
        return Ok(facts);
    }
    check_pattern(alloc, space, pattern)?;
    let found = space.matching(alloc, pattern)?;
    Ok(shown(alloc, space, found.as_slice())?)
}

fn check_pattern(alloc: Global, space: &Space, pattern: &Pattern) -> Result<(), Refusal> {
    for value in pattern.values.iter() {
        if let Some(known) = value {
            space.check(alloc, known)?;
        }
    }
    Ok(())
}

fn shown(alloc: Global, space: &Space, tuples: &[Tuple]) -> Result<Vec<Fact>, Memory> {
    let mut facts = Vec::new(alloc);
    for tuple in tuples {
        facts.push(space.shown(alloc, tuple)?)?;
    }
    Ok(facts)
}

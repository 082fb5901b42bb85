//! `insert`.

use crate::names::{check_new_fact, is_there};
use crate::single::single;
use def_memory::Memory;
use std::alloc::Global;
use ws_command::Bounds;
use ws_fault::Refusal;
use ws_hint::known_fact;
use ws_print::{Text, add_new_facts};
use ws_report::{Done, refuse};
use ws_space::Space;
use ws_written::{NewFact, Update};

/// The greatest number of tuples in a workspace.
const TUPLES: usize = 1_000_000;

/// Inserts tuples. It is refused if one names an unknown that is not there, or if the workspace is full.
pub fn insert(
    alloc: Global,
    space: &mut Space,
    facts: Vec<NewFact>,
    bounds: &Bounds,
) -> Result<Done, Refusal> {
    match line_if_there(alloc, space, facts.as_slice()) {
        Ok(Some(line)) => Ok(Done::nothing(alloc, "there already", line)),
        Ok(None) => single(alloc, space, Update::Insert(facts), bounds),
        Err(refusal) => Err(refusal),
    }
}

// The line as the reply prints it, if all tuples are there; else None. It is refused if it cannot be inserted.
fn line_if_there(
    alloc: Global,
    space: &Space,
    facts: &[NewFact],
) -> Result<Option<String>, Refusal> {
    for fact in facts {
        check_new_fact(alloc, space, fact)?;
    }
    if TUPLES <= space.state.facts().len() {
        return refuse(alloc, "there are 1000000 tuples, which is the limit", "");
    }
    if !are_there(alloc, space, facts)? {
        return Ok(None);
    }
    let mut line = Text::from_str(alloc, "insert ");
    add_new_facts(&mut line, space.relations.as_slice(), facts);
    let line = line.done()?;
    Ok(Some(line))
}

// Whether all tuples are there and none has a new unknown.
fn are_there(alloc: Global, space: &Space, facts: &[NewFact]) -> Result<bool, Memory> {
    for fact in facts {
        let Some(known) = known_fact(alloc, fact)? else {
            return Ok(false);
        };
        if !is_there(alloc, space, &known)? {
            return Ok(false);
        }
    }
    Ok(true)
}

//! `violations`: what mappings lack, and which keys clash.

use crate::clashes::{Clashes, clashes_of, inner_texts};
use crate::violation_lines::lines;
use crate::violation_objects::objects;
use base_types::Memory;
use std::alloc::Global;
use ws_fault::Status;
use ws_print::{Lines, Text, add_new_fact};
use ws_reply::{Context, Reply, seen_objects, seen_text};
use ws_space::{Space, Violation};
use ws_written::NewFact;

// The greatest number of violations that are listed for each mapping.
const OF_EACH: usize = 3;

/// A violation: its image, and the tuples that it lacks, in the form that commands take.
#[derive(Drop)]
pub(crate) struct Lack {
    pub since: Vec<String>,
    pub lacks: Vec<String>,
}

/// A mapping: whether it is in force, the number of its violations, and the first of them.
#[derive(Drop)]
pub(crate) struct Told {
    pub mapping: u16,
    pub in_force: bool,
    pub count: usize,
    pub first: Vec<Lack>,
}

/// The violations of one mapping; or those of all mappings, and the clashes of keys.
pub(crate) fn violations(
    alloc: Global,
    space: &Space,
    context: &Context<'_>,
    mapping: Option<&str>,
    limit: Option<u32>,
) -> Result<Reply, Memory> {
    let limit = limit_of(mapping, limit);
    let told = told_all(alloc, space, mapping, limit)?;
    let clashes = match mapping {
        Some(_) => Vec::new(alloc),
        None => clashes_of(alloc, space)?,
    };
    reply(
        alloc,
        space,
        context,
        told.as_slice(),
        clashes.as_slice(),
        limit,
    )
}

fn reply(
    alloc: Global,
    space: &Space,
    context: &Context<'_>,
    told: &[Told],
    clashes: &[Clashes],
    limit: usize,
) -> Result<Reply, Memory> {
    let status = status_of(told, clashes);
    if context.is_json() {
        return seen_objects(alloc, status, objects(alloc, space, told, clashes)?);
    }
    Ok(seen_text(status, lines(alloc, space, told, clashes, limit)?))
}

fn told_all(
    alloc: Global,
    space: &Space,
    mapping: Option<&str>,
    limit: usize,
) -> Result<Vec<Told>, Memory> {
    let numbers = wanted(alloc, space, mapping)?;
    let mut told = Vec::new(alloc);
    for number in numbers.iter() {
        told.push(told_of(alloc, space, *number, limit)?)?;
    }
    Ok(told)
}

fn limit_of(mapping: Option<&str>, limit: Option<u32>) -> usize {
    match limit {
        Some(limit) => limit as usize,
        None if mapping.is_some() => usize::MAX,
        None => OF_EACH,
    }
}

// The numbers of the mappings to report.
fn wanted(alloc: Global, space: &Space, mapping: Option<&str>) -> Result<Vec<u16>, Memory> {
    let mut numbers = Vec::new(alloc);
    for (number, rule) in space.rules.iter().enumerate() {
        let number = u16::try_from(number).unwrap_or(u16::MAX);
        let is_named = match mapping {
            Some(name) => rule.name.as_str() == name,
            None => true,
        };
        if is_named && !space.state.is_gone(number) {
            numbers.push(number)?;
        }
    }
    Ok(numbers)
}

fn told_of(alloc: Global, space: &Space, mapping: u16, limit: usize) -> Result<Told, Memory> {
    if space.state.in_force().contains(&mapping) {
        return Ok(Told {
            mapping,
            in_force: true,
            count: 0,
            first: Vec::new(alloc),
        });
    }
    let found = space.violations(alloc, mapping)?;
    Ok(Told {
        mapping,
        in_force: false,
        count: found.len(),
        first: first_lacks(alloc, space, mapping, found.as_slice(), limit)?,
    })
}

fn first_lacks(
    alloc: Global,
    space: &Space,
    mapping: u16,
    found: &[Violation],
    limit: usize,
) -> Result<Vec<Lack>, Memory> {
    let mut first = Vec::new(alloc);
    for violation in found.iter().take(limit) {
        first.push(lack_of(alloc, space, mapping, violation)?)?;
    }
    Ok(first)
}

fn lack_of(
    alloc: Global,
    space: &Space,
    mapping: u16,
    violation: &Violation,
) -> Result<Lack, Memory> {
    let since = inner_texts(alloc, space, violation.image.as_slice())?;
    Ok(Lack {
        since,
        lacks: lack_texts(alloc, space, mapping, violation)?,
    })
}

fn lack_texts(
    alloc: Global,
    space: &Space,
    mapping: u16,
    violation: &Violation,
) -> Result<Vec<String>, Memory> {
    let facts = space.lacking(alloc, mapping, violation)?;
    let mut texts = Lines::new(alloc);
    for fact in facts.iter() {
        texts.made(new_fact_text(alloc, space, fact));
    }
    Ok(texts.done()?)
}

fn new_fact_text(alloc: Global, space: &Space, fact: &NewFact) -> Result<String, Memory> {
    let mut text = Text::new(alloc);
    add_new_fact(&mut text, space.relations.as_slice(), fact);
    Ok(text.done()?)
}

fn status_of(told: &[Told], clashes: &[Clashes]) -> Status {
    if clashes.is_empty() && !one_is_violated(told) {
        return Status::Done;
    }
    Status::Violated
}

fn one_is_violated(told: &[Told]) -> bool {
    for one in told {
        if 0 < one.count {
            return true;
        }
    }
    false
}

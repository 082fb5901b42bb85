//! The mappings by which tuples came and went.

use crate::worlds::Standing;
use base_types::{Facts, Memory, Tuple, ValueList};
use run_note::Way;
use std::alloc::Global;
use std::collections::BTreeMap;
use ws_lines::Source;
use ws_run::{Ground, Step, Taking, follow};

/// The mapping by which the tuple came or went; None if it was no mapping.
pub(crate) fn by_of(by: &BTreeMap<Tuple, Source>, tuple: &Tuple) -> Option<u16> {
    match by.get(tuple) {
        Some(Source::By(mapping)) => Some(*mapping),
        Some(Source::Fix(mapping)) => Some(*mapping),
        Some(Source::Draw) => None,
        None => None,
    }
}

/// The tuples that came or went because of a source, each with that source.
pub(crate) fn ways_of(
    alloc: Global,
    ground: &Ground,
    standings: &[Standing],
) -> Result<BTreeMap<Tuple, Source>, Memory> {
    let mut by = BTreeMap::new(alloc);
    for standing in standings {
        note_ways(alloc, ground, standing, &mut by)?;
    }
    Ok(by)
}

// Notes the tuples that came or went because of a source in one run.
fn note_ways(
    alloc: Global,
    ground: &Ground,
    standing: &Standing,
    by: &mut BTreeMap<Tuple, Source>,
) -> Result<(), Memory> {
    let mut made = BTreeMap::new(alloc);
    for step in standing.steps.as_slice() {
        note_takes(step, by)?;
        note_puts(alloc, step, &mut made)?;
    }
    for (tuple, source) in &made {
        if let Some(source) = source {
            if ground.facts.contains(tuple) {
                put(by, tuple, *source)?;
            }
        }
    }
    Ok(())
}

/// Puts the value under the tuple.
pub(crate) fn put<V: Drop>(
    map: &mut BTreeMap<Tuple, V>,
    tuple: &Tuple,
    value: V,
) -> Result<(), Memory> {
    match map.insert(tuple.share()?, value) {
        Ok(_) => Ok(()),
        Err(_) => Err(Memory),
    }
}

fn note_takes(step: &Step, by: &mut BTreeMap<Tuple, Source>) -> Result<(), Memory> {
    let source = match step.taking {
        Taking::Needed(source) => source,
        Taking::Chosen(source) => source,
        _ => return Ok(()),
    };
    for tuple in step.note.deleted.as_slice() {
        put(by, tuple, source)?;
    }
    Ok(())
}

// A rewritten tuple came by the source of the tuple that it was.
fn note_puts(
    alloc: Global,
    step: &Step,
    made: &mut BTreeMap<Tuple, Option<Source>>,
) -> Result<(), Memory> {
    for tuple in step.note.puts.as_slice() {
        let source = match &step.note.way {
            Way::Generates { .. } => step.source,
            Way::Rewrites(_) => source_before(alloc, step, tuple, made)?,
            Way::Inserts => None,
        };
        put(made, tuple, source)?;
    }
    Ok(())
}

// The source of the tuple that the step rewrote into `tuple`.
fn source_before(
    alloc: Global,
    step: &Step,
    tuple: &Tuple,
    made: &BTreeMap<Tuple, Option<Source>>,
) -> Result<Option<Source>, Memory> {
    for old in step.note.deleted.as_slice() {
        if rewritten(alloc, step, old)? == *tuple {
            return Ok(match made.get(old) {
                Some(source) => *source,
                None => None,
            });
        }
    }
    Ok(None)
}

// What the tuple becomes by the step.
fn rewritten(alloc: Global, step: &Step, tuple: &Tuple) -> Result<Tuple, Memory> {
    let mut values = ValueList::new(alloc);
    for value in tuple.values.as_slice() {
        values.push(follow(alloc, std::slice::from_ref(step), value)?)?;
    }
    Tuple::new(alloc, tuple.relation, values)
}

//! From the head of a file to its state.

use crate::lines::table_of;
use crate::naming::{named_tuples, null_of};
use crate::rules::mapping_of;
use crate::waits::waits_of;
use base_types::{List, MappingList, Memory, Null};
use std::alloc::Global;
use ws_lines::TableList;
use ws_state::{Head as Numbered, OpenFault, State};
use ws_written::{Head, Relation, Rule, Unknown};

/// The state of a head with these mappings; None if no state has such a head.
pub(crate) fn state_of(
    alloc: Global,
    rules: &[Rule],
    head: &Head,
) -> Result<Option<State>, Memory> {
    let tables = tables_of(alloc, head.relations.as_slice())?;
    let unknowns = names_of(alloc, head.unknowns.as_slice())?;
    let base = named_tuples(alloc, head.base.as_slice())?;
    let mappings = mappings_of(alloc, rules)?;
    let Some(waits) = waits_of(alloc, rules, &mappings, head.waiting.as_slice())? else {
        return Ok(None);
    };
    let numbered = Numbered {
        last: head.last,
        tables,
        mappings,
        in_force: head.in_force.len(),
        unknowns,
        base,
        waits,
    };
    match State::of(alloc, numbered) {
        Ok(state) => Ok(Some(state)),
        Err(OpenFault::Memory) => Err(Memory),
        Err(_) => Ok(None),
    }
}

fn mappings_of(alloc: Global, rules: &[Rule]) -> Result<MappingList, Memory> {
    let mut mappings = MappingList::new(alloc);
    for rule in rules {
        mappings.push(mapping_of(alloc, rule)?)?;
    }
    Ok(mappings)
}

fn tables_of(alloc: Global, relations: &[Relation]) -> Result<TableList, Memory> {
    let mut tables = TableList::new(alloc);
    for relation in relations {
        tables.push(table_of(alloc, relation)?)?;
    }
    Ok(tables)
}

fn names_of(alloc: Global, unknowns: &[Unknown]) -> Result<List<Null>, Memory> {
    let mut names = List::new(alloc);
    names.reserve(unknowns.len())?;
    for unknown in unknowns {
        names.push(null_of(*unknown))?;
    }
    Ok(names)
}

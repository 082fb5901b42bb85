//! The relations of writes, and the queries that mention one of them.
ghost use Rattle.std.specs.Prelude.{◌≡◌, ◌==◌, map, IfOk, OnOk};
ghost use Rattle.std.specs.List.{list_any};
ghost use Rattle.base_types.specs.Contents.{rules_in};
ghost use Rattle.base_types.specs.Meanings.{change_of};
ghost use Rattle.chase_query.specs.Meanings.{query_of, reads_of};
ghost use Rattle.def_steps.specs.Chase.{relation_of as relation_of_def};
ghost use Rattle.audit_replay.specs.Changes.{any_met, meets};
ghost use Rattle.audit_replay.specs.Relations.{AreRelationsOf, HasMore, HasOneMore};

use base_types::{MappingList, Memory, Write};
use chase_query::{Logged, Query, mentions};
use std::alloc::Global;

/// The relations of the writes, each once.
pub(crate) fn relations_of(alloc: Global, writes: &[Write]) -> Result<Vec<u16>, Memory>
    ensures same { IfOk result (λ relations.
        AreRelationsOf (map change_of writes.now) relations.items) }
{
    let mut relations = Vec::new(alloc);
    put_relations(&mut relations, writes)?;
    Ok(relations)
}

/// Appends the relations of the writes to the others, if they are not among them.
pub(crate) fn put_relations(relations: &mut Vec<u16>, writes: &[Write]) -> Result<(), Memory>
    ensures more { OnOk result
        (HasMore relations.old.items (map change_of writes.now) relations.new.items) }
{
    for write in writes {
        put_relation(relations, relation_of(write))?;
    }
    Ok(())
}

// Appends the relation to the others, if it is not among them.
fn put_relation(relations: &mut Vec<u16>, relation: u16) -> Result<(), Memory>
    ensures more { OnOk result (HasOneMore relations.old.items relation relations.new.items) }
{
    if has(relations.as_slice(), relation) {
        return Ok(());
    }
    relations.push(relation)?;
    Ok(())
}

// Whether the relation is one of these.
fn has(relations: &[u16], relation: u16) -> bool
    ensures there { result ≡ list_any (λ k. k == relation) relations.now }
{
    relations.iter().any(|known| *known == relation)
}

/// The relation of the tuple that is written.
pub(crate) fn relation_of(write: &Write) -> u16
    ensures relation { result ≡ relation_of_def (change_of write.now) }
{
    match write {
        Write::Insert(tuple) => tuple.relation,
        Write::Delete(tuple) => tuple.relation,
    }
}

/// Whether one of the entry's reads mentions one of the relations.
pub(crate) fn is_any_met(entry: &Logged, mappings: &MappingList, relations: &[u16]) -> bool
    ensures met { result ≡ any_met (rules_in mappings.now) relations.now (reads_of entry.now) }
{
    relations
        .iter()
        .any(|relation| entry.mentions(mappings, *relation))
}

/// Whether the query mentions one of the relations.
pub(crate) fn is_met(query: &Query, mappings: &MappingList, relations: &[u16]) -> bool
    ensures met { result ≡ meets (rules_in mappings.now) relations.now (query_of query.now) }
{
    relations
        .iter()
        .any(|relation| mentions(query, mappings, *relation))
}

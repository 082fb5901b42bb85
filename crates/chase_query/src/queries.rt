//! Queries, and the relations that they mention.
ghost use Rattle.std.specs.Prelude.{◌≡◌, ◌==◌, map, IfOk};
ghost use Rattle.std.specs.List.{list_any};
ghost use Rattle.def_chase.specs.Queries.{Query as QueryMeant, Violation};
ghost use Rattle.def_chase.specs.Mentions.{mentions as mentions_def};
ghost use Rattle.base_types.specs.Meanings.{pattern_of, rule_of};
ghost use Rattle.chase_query.specs.Meanings.{query_of};

use base_types::{Atom, MappingList, Memory, OuterName, TryCopy, Tuple};
use std::alloc::Global;

/// A query: is the tuple there; what is the first violation of the mapping of this number; which tuples are more specific than
/// the tuple; which tuples hold a null of this name.
#[derive(Debug, Drop)]
pub enum Query {
    Present(Tuple),
    Violation(u16),
    Specific(Tuple),
    Occurs(OuterName),
}

impl TryCopy for Query {
    ghost Meaning = { QueryMeant };

    ghost meaning = { query_of };

    fn copy(&self, alloc: Global) -> Result<Query, Memory>
        ensures same { IfOk result (λ copy. query_of copy ≡ query_of self.now) }
    {
        match self {
            Query::Present(tuple) => Ok(Query::Present(tuple.copy(alloc)?)),
            Query::Violation(mapping) => Ok(Query::Violation(*mapping)),
            Query::Specific(tuple) => Ok(Query::Specific(tuple.copy(alloc)?)),
            Query::Occurs(name) => Ok(Query::Occurs(*name)),
        }
    }
}

/// Whether the query mentions the relation: only tuples of the relations that it mentions decide its value. A violation mentions
/// the relations on both sides of its mapping, and an occurrence mentions every relation.
pub fn mentions(query: &Query, mappings: &MappingList, relation: u16) -> bool
    ensures answer { result ≡ mentions_def (map rule_of mappings.now.items)
        (query_of query.now) relation }
{
    match query {
        Query::Present(tuple) => tuple.relation == relation,
        Query::Violation(number) => violation_mentions(*number, mappings, relation),
        Query::Specific(tuple) => tuple.relation == relation,
        Query::Occurs(_) => true,
    }
}

/// Whether the query for the first violation of the mapping of this number mentions the relation.
pub(crate) fn violation_mentions(number: u16, mappings: &MappingList, relation: u16) -> bool
    ensures answer { result ≡ mentions_def (map rule_of mappings.now.items)
        (Violation number) relation }
{
    match mappings.get(number as usize) {
        Some(mapping) => {
            stands_in(mapping.left.as_slice(), relation)
                || stands_in(mapping.right.as_slice(), relation)
        }
        None => false,
    }
}

// Whether one of the atoms is of the relation.
fn stands_in(atoms: &[Atom], relation: u16) -> bool
    ensures answer { result ≡ list_any (λ a. a.relation == relation) (map pattern_of atoms.now) }
{
    atoms.iter().any(|atom| atom.relation == relation)
}

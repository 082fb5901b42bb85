//! The value of a query over a set that has the own writes already.
ghost use Rattle.std.specs.Prelude.{◌≡◌, if◌then◌else◌, IfOk};
ghost use Rattle.def_chase.specs.Queries.{value, Yes, No};
ghost use Rattle.def_chase.specs.Repository.{has, apply};
ghost use Rattle.base_types.specs.Meanings.{fact_of};
ghost use Rattle.chase_query.specs.Meanings.{query_of, reply_of};
ghost use Rattle.chase_eval.specs.Counted.{scope_meant};
ghost use Rattle.chase_eval.specs.Seen.{IsValueWith};
ghost use Rattle.chase_eval.specs.Watched.{AreForceless};
ghost use Rattle.base_types.specs.Contents.{changes_of, rules_in};

use crate::occurrences::occurrences;
use crate::scopes::{Counted, first_image, scope_at};
use base_types::{Facts, MappingList, Memory, Tuple, WriteList};
use chase_query::{Query, Reply};
use chase_unifier::candidates;
use std::alloc::Global;

/// An update's own writes, and whether one of them may put a mapping in force.
#[derive(Clone, Copy)]
pub(crate) struct Writes<'a> {
    pub(crate) own: &'a WriteList,
    pub(crate) enacts: bool,
}

/// The value of the query over the set, if the violations `counted` count. The set has the own writes already.
pub(crate) fn value_over<F: Facts>(
    alloc: Global,
    query: &Query,
    mappings: &MappingList,
    facts: &F,
    writes: Writes<'_>,
    counted: Counted,
) -> Result<Reply, Memory>
    requires forceless { AreForceless writes.enacts (changes_of writes.own.now) }
    ensures value { IfOk result (λ answer. IsValueWith (rules_in mappings.now) (query_of query.now)
        (F.tuples facts.now) (changes_of writes.entry.own.now) (scope_meant counted)
        (reply_of answer)) }
{
    match query {
        Query::Present(tuple) => Ok(presence(tuple, facts)),
        Query::Violation(number) => {
            let scope = scope_at(counted, writes.own, writes.enacts, *number);
            first_image(alloc, mappings.get(*number as usize), facts, scope)
        }
        Query::Specific(tuple) => {
            let found = candidates(alloc, tuple, facts)?;
            Ok(Reply::Tuples(found))
        }
        Query::Occurs(name) => {
            let found = occurrences(alloc, *name, facts)?;
            Ok(Reply::Tuples(found))
        }
    }
}

// Whether the tuple is in the set.
fn presence<F: Facts>(tuple: &Tuple, facts: &F) -> Reply
    ensures answer { reply_of result ≡ (if has (F.tuples facts.now)
        (fact_of tuple.now) then Yes else No) }
{
    if facts.contains(tuple) {
        Reply::Yes
    } else {
        Reply::No
    }
}

//! The value of a single query.
ghost use Rattle.std.specs.Prelude.{◌≡◌, IfOk};
ghost use Rattle.def_chase.specs.Queries.{value};
ghost use Rattle.def_chase.specs.Violations.{Every, Caused};
ghost use Rattle.base_types.specs.Meanings.{heading_of};
ghost use Rattle.chase_query.specs.Meanings.{query_of, reply_of};
ghost use Rattle.base_types.specs.Contents.{changes_of, rules_in};

use crate::view::View;
use base_types::{Direction, Facts, MappingList, Memory, WriteList};
use chase_query::{Query, Reply};
use std::alloc::Global;

/// The value of the query over the set with the own writes applied. Only those violations count that the own writes caused in the
/// direction; forward, if they put the mapping in force, all its violations count. A mapping that is not in the list has none.
pub fn eval<F: Facts>(
    alloc: Global,
    query: &Query,
    mappings: &MappingList,
    facts: &F,
    own: &WriteList,
    direction: Direction,
) -> Result<Reply, Memory>
    ensures value { IfOk result (λ answer. reply_of answer ≡
        value (rules_in mappings.now) (query_of query.now)
        (F.tuples facts.now) (changes_of own.now) (Caused (heading_of direction))) }
{
    let mut view = View::new(alloc, facts);
    view.write_all(alloc, own.as_slice())?;
    view.eval(query, mappings, direction, alloc)
}

/// The value of the query over the set with the own writes applied. Every violation counts. A mapping that is not in the list has
/// none.
pub fn eval_all<F: Facts>(
    alloc: Global,
    query: &Query,
    mappings: &MappingList,
    facts: &F,
    own: &WriteList,
) -> Result<Reply, Memory>
    ensures value { IfOk result (λ answer. reply_of answer ≡
        value (rules_in mappings.now) (query_of query.now)
        (F.tuples facts.now) (changes_of own.now) Every) }
{
    let mut view = View::new(alloc, facts);
    view.write_all(alloc, own.as_slice())?;
    view.eval_all(query, mappings, alloc)
}

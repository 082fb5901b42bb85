//! The tuples that hold a null.
ghost use Rattle.std.specs.Prelude.{◌≡◌, map, filter, IfOk};
ghost use Rattle.def_chase.specs.Queries.{holds_null as holds_null_def};
ghost use Rattle.base_types.specs.Meanings.{fact_of};

use base_types::{Facts, List, Memory, OuterName, TryCopy, TupleList};
use std::alloc::Global;

/// The tuples that hold a null of this name, in order.
pub(crate) fn occurrences<F: Facts>(
    alloc: Global,
    name: OuterName,
    facts: &F,
) -> Result<TupleList, Memory>
    ensures value { IfOk result (λ found. map fact_of found.items ≡
        filter (holds_null_def name.update name.place) (F.tuples facts.now)) }
{
    let mut found = List::new(alloc);
    let mut cursor = facts.holding(name, None);
    while let Some(tuple) = cursor {
        found.push(tuple.copy(alloc)?)?;
        cursor = facts.holding(name, Some(tuple));
    }
    Ok(found)
}

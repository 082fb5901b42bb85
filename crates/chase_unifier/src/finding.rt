//! The candidates of a generated tuple.
ghost use Rattle.std.specs.Prelude.{◌≡◌, map, filter, IfOk};
ghost use Rattle.std.specs.List.{list_all};
ghost use Rattle.def_chase.specs.Specific.{is_constant as is_constant_def, more_specific};
ghost use Rattle.def_chase.specs.Values.{same_fact};
ghost use Rattle.base_types.specs.Meanings.{datum_of, fact_of};

use crate::columns::constant_column;
use crate::specific::{is_constant, is_more_specific};
use base_types::{Facts, List, Memory, TryCopy, Tuple, TupleList, Value};
use chase_match::Walk;
use std::alloc::Global;

/// All tuples of the set that are more specific than the tuple, in order. If the tuple has no null, only the tuple itself is
/// looked up, since no other is more specific. Otherwise, if it has a constant, only the tuples with that constant in its column
/// are looked at. Otherwise, all tuples of the relation are.
pub fn candidates<F: Facts>(alloc: Global, tuple: &Tuple, facts: &F) -> Result<TupleList, Memory>
    ensures value { IfOk result (λ found. map fact_of found.items ≡
        filter (λ s. more_specific s (fact_of tuple.now)) (F.tuples facts.now)) }
{
    if is_ground(tuple.values.as_slice()) {
        let same = itself(alloc, tuple, facts)?;
        return Ok(same);
    }
    let column = constant_column(tuple);
    let mut found = List::new(alloc);
    let mut walk = Walk::new(facts, tuple.relation, column);
    while let Some(held) = walk.next() {
        if is_more_specific(tuple, held) {
            found.push(held.copy(alloc)?)?;
        }
    }
    Ok(found)
}

// Whether no value is a null.
fn is_ground(values: &[Value]) -> bool
    ensures ground { result ≡ list_all is_constant_def (map datum_of values.now) }
{
    values.iter().all(|value| is_constant(value))
}

// The tuple, if it is in the set.
fn itself<F: Facts>(alloc: Global, tuple: &Tuple, facts: &F) -> Result<TupleList, Memory>
    ensures same { IfOk result (λ found. map fact_of found.items ≡
        filter (same_fact (fact_of tuple.now)) (F.tuples facts.now)) }
{
    let mut found = List::new(alloc);
    if !facts.contains(tuple) {
        return Ok(found);
    }
    found.push(tuple.copy(alloc)?)?;
    Ok(found)
}

//! The nulls of tuples, and the nulls that a substitution moves.
ghost use Rattle.std.specs.Prelude.{◌≡◌, map, IfOk, OnOk};
ghost use Rattle.std.specs.List.{list_any};
ghost use Rattle.base_types.specs.Meanings.{null_of, datum_of, fact_of};
ghost use Rattle.base_types.specs.Maps.{images_of, moved_by};
ghost use Rattle.def_steps.specs.Rewriting.{nulls_in as nulls_in_def, same_null, sorted_nulls};
ghost use Rattle.chase_repair.specs.Nulls.{with_null, with_null_of, moved_among as moved_among_def, moves as moves_def};

use crate::ordering::listed;
use base_types::{List, Memory, Null, Sub, Tuple, Value};
use std::alloc::Global;
use std::collections::BTreeSet;

/// The distinct nulls among the values, in order of first position.
pub fn nulls_in(alloc: Global, values: &[Value]) -> Result<List<Null>, Memory>
    ensures value { IfOk result (λ nulls. map null_of nulls.items ≡
        nulls_in_def (map datum_of values.now)) }
{
    let mut nulls = List::new(alloc);
    for value in values {
        add_null_of(&mut nulls, value)?;
    }
    Ok(nulls)
}

/// The nulls of the tuple that the substitution moves, in their order.
pub(crate) fn moved_nulls(alloc: Global, sub: &Sub, tuple: &Tuple) -> Result<List<Null>, Memory>
    ensures value { IfOk result (λ nulls.
        map null_of nulls.items ≡ moved_among_def sub.now
        (sorted_nulls (nulls_in_def (fact_of tuple.now).values))) }
{
    let all = nulls_in(alloc, tuple.values.as_slice())?;
    let sorted = listed(alloc, sorted(alloc, all.as_slice())?)?;
    moved_among(alloc, sub, sorted.as_slice())
}

// Adds the value to the list, if it is a null that is not there yet.
fn add_null_of(nulls: &mut List<Null>, value: &Value) -> Result<(), Memory>
    ensures ok { OnOk result (map null_of nulls.new.items ≡
        with_null_of (map null_of nulls.old.items) (datum_of value.now)) }
{
    match value {
        Value::Null(null) => add_null(nulls, *null),
        Value::Int(_) => Ok(()),
        Value::Word(_) => Ok(()),
    }
}

// Adds the null, if it is not there yet.
fn add_null(nulls: &mut List<Null>, null: Null) -> Result<(), Memory>
    ensures ok { OnOk result (map null_of nulls.new.items ≡
        with_null (map null_of nulls.old.items) (null_of null)) }
{
    if !is_among(nulls.as_slice(), null) {
        nulls.push(null)?;
    }
    Ok(())
}

// Whether the null is one of these.
fn is_among(nulls: &[Null], null: Null) -> bool
    ensures answer { result ≡ list_any (same_null (null_of null)) (map null_of nulls.now) }
{
    nulls.iter().any(|other| null == *other)
}

// The set of the nulls.
fn sorted(alloc: Global, nulls: &[Null]) -> Result<BTreeSet<Null>, Memory>
    ensures value { IfOk result (λ set. map null_of set.keys ≡
        sorted_nulls (map null_of nulls.now)) }
{
    match nulls {
        [] => Ok(BTreeSet::new(alloc)),
        [null, others @ ..] => {
            let mut set = sorted(alloc, others)?;
            set.insert(*null)?;
            Ok(set)
        }
    }
}

// The nulls among these that the substitution moves.
fn moved_among(alloc: Global, sub: &Sub, nulls: &[Null]) -> Result<List<Null>, Memory>
    ensures value { IfOk result (λ moved.
        map null_of moved.items ≡ moved_among_def sub.now (map null_of nulls.now)) }
{
    let mut moved = List::new(alloc);
    for null in nulls {
        if moves(sub, *null) {
            moved.push(*null)?;
        }
    }
    Ok(moved)
}

// Whether the substitution moves the null.
fn moves(sub: &Sub, null: Null) -> bool
    ensures answer { result ≡ moves_def (moved_by (images_of sub.now)) (null_of null) }
{
    match sub.get(null) {
        Some(image) => *image != Value::Null(null),
        None => false,
    }
}

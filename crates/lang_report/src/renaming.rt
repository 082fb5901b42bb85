//! The nulls of a repository, renamed as nulls of a base.

ghost use Rattle.std.specs.Prelude.{◌≡◌, map, flat_map, fold, count_by, IfOk, OnOk};
ghost use Rattle.std.specs.BTreeSet.{insert_key};
ghost use Rattle.std.specs.List.Sorted.{IsStrictlySortedBy};
ghost use Rattle.std.specs.Ordering.{is_lt, on};
ghost use Rattle.def_chase.specs.Values.{null_cmp};
ghost use Rattle.base_types.specs.Meanings.{datum_of, fact_of, null_of};
ghost use Rattle.lang_report.specs.Saved.{base_fact, base_null, base_value, different_nulls, null_in, nulls_in, saved_base};

use base_types::{List, Memory, Null, TryCopy, Tuple, TupleList, Value};
use std::alloc::Global;
use std::collections::BTreeSet;

// Notes the value if it is a null.
fn note_value(nulls: &mut BTreeSet<Null>, value: &Value) -> Result<(), Memory>
    ensures { OnOk result (map null_of nulls.new.keys ≡
        fold (insert_key null_cmp) (map null_of nulls.old.keys) (null_in (datum_of value.now))) }
{
    match value {
        Value::Int(_) => Ok(()),
        Value::Word(_) => Ok(()),
        Value::Null(null) => {
            nulls.insert(*null)?;
            Ok(())
        }
    }
}

// Notes the nulls of a tuple.
#[tactic(auto, using(lang_print::proofs::Onward::pieces_more))]
fn note_tuple(nulls: &mut BTreeSet<Null>, values: &[Value]) -> Result<(), Memory>
    ensures { OnOk result (map null_of nulls.new.keys ≡
        fold (insert_key null_cmp) (map null_of nulls.old.keys)
        (flat_map null_in (map datum_of values.now))) }
{
    for value in values {
        note_value(nulls, value)?;
    }
    Ok(())
}

// The set of the nulls of tuples.
#[tactic(auto, using(lang_print::proofs::Onward::pieces_more))]
fn different_nulls(alloc: Global, tuples: &[Tuple]) -> Result<BTreeSet<Null>, Memory>
    ensures { IfOk result (λ nulls. map null_of nulls.keys ≡
        different_nulls (map fact_of tuples.now)) }
{
    let mut nulls = BTreeSet::new(alloc);
    for tuple in tuples {
        note_tuple(&mut nulls, tuple.values.as_slice())?;
    }
    Ok(nulls)
}

// The members of the set in order.
fn listed(alloc: Global, nulls: &BTreeSet<Null>) -> Result<List<Null>, Memory>
    ensures members { IfOk result (λ list. list.items ≡ nulls.now.keys) }
    ensures sorted { IfOk result (λ list. IsStrictlySortedBy (on null_of null_cmp) list.items) }
{
    let mut list = List::new(alloc);
    list.reserve(nulls.len())?;
    for null in nulls.iter() {
        list.push(*null)?;
    }
    Ok(list)
}

// The number of nulls that are less.
fn rank(nulls: &[Null], null: Null) -> usize
    requires { IsStrictlySortedBy (on null_of null_cmp) nulls.now }
    ensures { result ≡ count_by (λ m. is_lt (null_cmp m (null_of null))) (map null_of nulls.now) }
{
    nulls.partition_point(|other| other.cmp(&null).is_lt())
}

// The null of a base for this one, by its rank. A rank that is too great for a null of a base is reported as want of memory.
fn base_null(nulls: &[Null], null: Null) -> Result<Null, Memory>
    requires { IsStrictlySortedBy (on null_of null_cmp) nulls.now }
    ensures { IfOk result (λ n. null_of n ≡ base_null (map null_of nulls.now) (null_of null)) }
{
    let Ok(below) = u32::try_from(rank(nulls, null)) else {
        return Err(Memory);
    };
    let Some(place) = below.checked_add(1) else {
        return Err(Memory);
    };
    Ok(Null {
        update: 0,
        attempt: 0,
        place,
    })
}

fn base_value(alloc: Global, nulls: &[Null], value: &Value) -> Result<Value, Memory>
    requires { IsStrictlySortedBy (on null_of null_cmp) nulls.now }
    ensures { IfOk result (λ v. datum_of v ≡
        base_value (map null_of nulls.now) (datum_of value.now)) }
{
    match value {
        Value::Int(number) => Ok(Value::Int(*number)),
        Value::Word(word) => Ok(Value::Word(word.copy(alloc)?)),
        Value::Null(null) => Ok(Value::Null(base_null(nulls, *null)?)),
    }
}

fn base_fact(alloc: Global, nulls: &[Null], tuple: &Tuple) -> Result<Tuple, Memory>
    requires { IsStrictlySortedBy (on null_of null_cmp) nulls.now }
    ensures { IfOk result (λ t. fact_of t ≡ base_fact (map null_of nulls.now) (fact_of tuple.now)) }
{
    let mut values = List::new(alloc);
    values.reserve(tuple.values.len())?;
    for value in tuple.values.as_slice() {
        values.push(base_value(alloc, nulls, value)?)?;
    }
    Tuple::new(alloc, tuple.relation, values)
}

/// The tuples of a repository as tuples of a base.
pub(crate) fn saved_base(alloc: Global, tuples: &[Tuple]) -> Result<TupleList, Memory>
    ensures { IfOk result (λ base. map fact_of base.items ≡ saved_base (map fact_of tuples.now)) }
{
    let nulls = listed(alloc, &different_nulls(alloc, tuples)?)?;
    renamed(alloc, nulls.as_slice(), tuples)
}

fn renamed(alloc: Global, nulls: &[Null], tuples: &[Tuple]) -> Result<TupleList, Memory>
    requires { IsStrictlySortedBy (on null_of null_cmp) nulls.now }
    ensures { IfOk result (λ base. map fact_of base.items ≡
        map (base_fact (map null_of nulls.now)) (map fact_of tuples.now)) }
{
    let mut base = List::new(alloc);
    base.reserve(tuples.len())?;
    for tuple in tuples {
        base.push(base_fact(alloc, nulls, tuple)?)?;
    }
    Ok(base)
}

//! The values of a mapping's variables in a forward repair: the variables on the left by the image, and a fresh null for each
//! existential one.
ghost use Rattle.std.specs.Prelude.{◌≡◌, ◌+◌, ◌<◌, ◌^◌, ◌++◌, pos, map, unwrap_or, IfOk, OnOk};
ghost use Rattle.std.specs.List.{range_with_len};
ghost use Rattle.def_chase.specs.Values.{Number};
ghost use Rattle.base_types.specs.Contents.{data_of, facts_of};
ghost use Rattle.base_types.specs.Meanings.{datum_of, rule_of};
ghost use Rattle.chase_match.specs.Partial.{known_at};
ghost use Rattle.def_steps.specs.Rewriting.{binding_of};
ghost use Rattle.chase_repair.specs.Nulls.{drawn_from, values_in};

use base_types::{List, Mapping, Memory, Null, TryCopy, TupleList, Value, ValueList};
use chase_match::PartialMatch;
use std::alloc::Global;

/// The source of an attempt's nulls: the numbers of the update and of the attempt, and the number of nulls drawn so far.
#[derive(Clone, Copy, Debug)]
pub struct Fresh {
    pub update: u32,
    pub attempt: u32,
    pub drawn: u32,
}

/// The number of the mapping's existential variables, which is the number of nulls that its repair draws.
pub fn existential(mapping: &Mapping) -> usize
    ensures count { result ≡ (rule_of mapping.now).existential }
{
    mapping
        .names
        .len()
        .saturating_sub(mapping.universal as usize)
}

/// The values of all variables of the mapping at the image.
pub(crate) fn values_at(
    alloc: Global,
    mapping: &Mapping,
    image: &TupleList,
    fresh: Fresh,
) -> Result<ValueList, Memory>
    requires { fresh.drawn + (rule_of mapping.now).existential < 2 ^ 32 }
    ensures value { IfOk result (λ values.
        data_of values ≡ values_in fresh (rule_of mapping.now) (facts_of image.now)) }
{
    let mut values = universal_values(alloc, mapping, image)?;
    draw(&mut values, fresh, existential(mapping))?;
    Ok(values)
}

// The values of the variables on the left at the image.
fn universal_values(
    alloc: Global,
    mapping: &Mapping,
    image: &TupleList,
) -> Result<ValueList, Memory>
    ensures value { IfOk result (λ values.
        data_of values ≡ binding_of (rule_of mapping.now) (facts_of image.now)) }
{
    let mut partial = PartialMatch::new(alloc);
    if partial.learn_image(mapping.left.as_slice(), image.as_slice())? {
        known_values(alloc, &partial, mapping.universal)
    } else {
        Ok(List::new(alloc))
    }
}

// The values of the first `count` variables; the number 0 for an unknown one.
fn known_values<'a>(
    alloc: Global,
    partial: &PartialMatch<'a>,
    count: u16,
) -> Result<ValueList, Memory>
    ensures value { IfOk result (λ values.
        data_of values ≡ map (λ v. unwrap_or (known_at partial.now v) (Number (pos 0)))
        (range_with_len 0 count)) }
{
    let mut values = List::new(alloc);
    for variable in 0..count {
        values.push(known_value(alloc, partial, variable)?)?;
    }
    Ok(values)
}

// The value of the variable; the number 0 if it is not known.
fn known_value<'a>(
    alloc: Global,
    partial: &PartialMatch<'a>,
    variable: u16,
) -> Result<Value, Memory>
    ensures value { IfOk result (λ value. datum_of value ≡
        unwrap_or (known_at partial.now variable) (Number (pos 0))) }
{
    match partial.get(variable) {
        Some(value) => value.copy(alloc),
        None => Ok(Value::Int(0)),
    }
}

// Adds `count` fresh nulls to the values.
fn draw(values: &mut ValueList, fresh: Fresh, count: usize) -> Result<(), Memory>
    requires { fresh.drawn + count < 2 ^ 32 }
    ensures ok { OnOk result (data_of values.new ≡ data_of values.old ++ drawn_from fresh count) }
{
    for number in 0..count {
        values.push(Value::Null(Null {
            update: fresh.update,
            attempt: fresh.attempt,
            place: fresh.drawn + 1 + number as u32,
        }))?;
    }
    Ok(())
}

//! The printed form of a tuple.

ghost use Rattle.std.specs.Prelude.{◌≡◌, ◌++◌, ◌∷◌, [], map, flat_map, IfOk, OnOk, OnErr};
ghost use Rattle.base_types.specs.Meanings.{datum_of, fact_of};
ghost use Rattle.def_language.specs.Printing.{joined_text, tuple_text, value_text};
ghost use mathlib.Core.List.{IsPrefix};

use crate::plain::push_plain;
use crate::schema::Schema;
use crate::spelling::push_value;
use base_types::{FORCE_RELATION, Memory, Tuple, Value};
use std::alloc::{AllocError, Global};

fn push_other(out: &mut Vec<u8>, inner: bool, value: &Value) -> Result<(), AllocError>
    ensures ok { OnOk result (out.new.items ≡
        out.old.items ++ 44 ∷ 32 ∷ value_text inner (datum_of value.now)) }
    ensures err { OnErr result (IsPrefix out.old.items out.new.items) }
{
    out.push(b',')?;
    out.push(b' ')?;
    push_value(out, inner, value)
}

fn push_others(out: &mut Vec<u8>, inner: bool, values: &[Value]) -> Result<(), AllocError>
    ensures ok { OnOk result (out.new.items ≡
        out.old.items ++ flat_map (λ d. 44 ∷ 32 ∷ value_text inner d) (map datum_of values.now)) }
    ensures err { OnErr result (IsPrefix out.old.items out.new.items) }
{
    for value in values {
        push_other(out, inner, value)?;
    }
    Ok(())
}

// Adds values with a comma and a space between them.
fn push_all(out: &mut Vec<u8>, inner: bool, values: &[Value]) -> Result<(), AllocError>
    ensures ok { OnOk result (out.new.items ≡
        out.old.items ++ joined_text (value_text inner) (map datum_of values.now)) }
    ensures err { OnErr result (IsPrefix out.old.items out.new.items) }
{
    match values {
        [] => Ok(()),
        [first, others @ ..] => {
            push_value(out, inner, first)?;
            push_others(out, inner, others)
        }
    }
}

/// Adds values with a comma and a space between them, with nulls by their inner names if `inner` holds. If it is refused, the
/// text is unchanged.
pub fn push_values(out: &mut Vec<u8>, inner: bool, values: &[Value]) -> Result<(), AllocError>
    ensures ok { OnOk result (out.new.items ≡
        out.old.items ++ joined_text (value_text inner) (map datum_of values.now)) }
    ensures err { OnErr result (out.new.items ≡ out.old.items) }
{
    let had = out.len();
    let added = push_all(out, inner, values);
    if added.is_err() {
        out.truncate(had);
    }
    added
}

/// Adds a tuple of a relation of this name: the name, and the values in parentheses.
pub(crate) fn push_fact(
    out: &mut Vec<u8>,
    inner: bool,
    name: &[u8],
    values: &[Value],
) -> Result<(), AllocError>
    ensures { OnOk result (out.new.items ≡ out.old.items ++ (name.now
        ++ (40 ∷ (joined_text (value_text inner) (map datum_of values.now) ++ 41 ∷ [])))) }
{
    push_plain(out, name)?;
    out.push(b'(')?;
    push_all(out, inner, values)?;
    out.push(b')')?;
    Ok(())
}

fn push_tuple(
    out: &mut Vec<u8>,
    schema: &Schema,
    inner: bool,
    tuple: &Tuple,
) -> Result<(), AllocError>
    ensures { OnOk result (out.new.items ≡
        out.old.items ++ tuple_text schema.now inner (fact_of tuple.now)) }
{
    let values = tuple.values.as_slice();
    if tuple.relation == FORCE_RELATION {
        out.push(b'*')?;
        return push_values(out, inner, values);
    }
    push_fact(out, inner, schema.name(tuple.relation), values)
}

/// The printed form of a tuple: the name of its relation and its values, as a session spells them. Nulls have their outer names
/// `?u.k`, or if `inner` holds their inner names `?u.k@a`. A tuple of relation 65,535, which says that a mapping was put in
/// force, is `*` and that mapping's number.
pub fn print_tuple(
    alloc: Global,
    schema: &Schema,
    tuple: &Tuple,
    inner: bool,
) -> Result<Vec<u8>, Memory>
    ensures printed { IfOk result (λ text. text.items ≡
        tuple_text schema.now inner (fact_of tuple.now)) }
{
    let mut text = Vec::new(alloc);
    push_tuple(&mut text, schema, inner, tuple)?;
    Ok(text)
}

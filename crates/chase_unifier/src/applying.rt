//! Substitutions, applied to tuples and rows of values.
ghost use Rattle.std.specs.Prelude.{◌≡◌, map, IfOk};
ghost use Rattle.def_chase.specs.Values.{under};
ghost use Rattle.base_types.specs.Meanings.{datum_of, fact_of};
ghost use Rattle.base_types.specs.Maps.{images_of, moved_by};

use base_types::{List, Memory, Sub, TryCopy, Tuple, Value, ValueList};
use std::alloc::Global;

/// The tuple with each null that has an image replaced by it.
pub fn apply(alloc: Global, sub: &Sub, tuple: &Tuple) -> Result<Tuple, Memory>
    ensures value { IfOk result (λ moved. fact_of moved ≡
        under (moved_by (images_of sub.now)) (fact_of tuple.now)) }
{
    let values = apply_row(alloc, sub, tuple.values.as_slice())?;
    Tuple::new(alloc, tuple.relation, values)
}

/// The values with each null that has an image replaced by it.
pub fn apply_row(alloc: Global, sub: &Sub, row: &[Value]) -> Result<ValueList, Memory>
    ensures value { IfOk result (λ moved. map datum_of moved.items ≡
        map (moved_by (images_of sub.now)) (map datum_of row.now)) }
{
    let mut values = List::new(alloc);
    values.reserve(row.len())?;
    for value in row {
        values.push(moved(alloc, sub, value)?)?;
    }
    Ok(values)
}

// The image of the value if it is a null that has one, otherwise the value.
fn moved(alloc: Global, sub: &Sub, value: &Value) -> Result<Value, Memory>
    ensures value { IfOk result (λ moved. datum_of moved ≡
        moved_by (images_of sub.now) (datum_of value.now)) }
{
    match value {
        Value::Null(null) => match sub.get(*null) {
            Some(image) => image.copy(alloc),
            None => value.copy(alloc),
        },
        Value::Int(_) => value.copy(alloc),
        Value::Word(_) => value.copy(alloc),
    }
}

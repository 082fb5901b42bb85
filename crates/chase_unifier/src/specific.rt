//! The test whether a tuple is more specific than another, and the substitution that takes the other to it.
ghost use Rattle.std.specs.Prelude.{◌≡◌, IfOk, IfSome};
ghost use Rattle.std.specs.List.{list_all};
ghost use Rattle.std.specs.Option.{option_map};
ghost use Rattle.def_chase.specs.Values.{under};
ghost use Rattle.def_chase.specs.Specific.{is_constant as is_constant_def, more_specific, image_of as image_of_def};
ghost use Rattle.base_types.specs.Meanings.{datum_of, fact_of};
ghost use Rattle.base_types.specs.Maps.{images_of, moved_by};
ghost use Rattle.chase_unifier.specs.Graphs.{pairs, keeps_constant, may_stand as may_stand_def, taking};

use crate::nulls::give;
use base_types::{Memory, Sub, Tuple, Value};
use std::alloc::Global;

/// Whether the second tuple is more specific than the first: it is the first with each null replaced by one value wherever it
/// stands. Its time grows with the square of the number of columns.
pub fn is_more_specific(tuple: &Tuple, specific: &Tuple) -> bool
    ensures answer { result ≡ more_specific (fact_of specific.now) (fact_of tuple.now) }
{
    if specific.relation != tuple.relation || specific.values.len() != tuple.values.len() {
        return false;
    }
    is_function(tuple.values.as_slice(), specific.values.as_slice())
}

/// The substitution that takes the first tuple to the second; None exactly if the second is not more specific. The image of each
/// null of the first is the value at its place in the second.
pub fn specific_by(alloc: Global, tuple: &Tuple, specific: &Tuple) -> Result<Option<Sub>, Memory>
    ensures value { IfOk result (λ found. option_map (λ sub. moved_by (images_of sub)) found ≡
        taking (fact_of tuple.now) (fact_of specific.now)) }
    ensures takes { IfOk result (λ found.
        IfSome found (λ sub. under (moved_by (images_of sub)) (fact_of tuple.now) ≡
        fact_of specific.now)) }
{
    if !is_more_specific(tuple, specific) {
        return Ok(None);
    }
    let mut sub = Sub::new(alloc);
    for value in tuple.values.as_slice() {
        give(alloc, &mut sub, value, image_of(tuple, specific, value))?;
    }
    Ok(Some(sub))
}

/// The value of the second tuple at the place where the value first stands in the first; the value itself if it does not stand
/// there.
pub(crate) fn image_of<'a>(tuple: &Tuple, specific: &'a Tuple, value: &'a Value) -> &'a Value
    ensures image { datum_of result.now ≡
        image_of_def (fact_of tuple.now) (fact_of specific.now) (datum_of value.now) }
{
    let images = specific.values.as_slice();
    let found = tuple
        .values
        .as_slice()
        .iter()
        .zip(images)
        .find(|pair| pair.0 == value);
    match found {
        Some(pair) => pair.1,
        None => value,
    }
}

/// Whether the value is a number or a word.
pub(crate) fn is_constant(value: &Value) -> bool
    ensures answer { result ≡ is_constant_def (datum_of value.now) }
{
    match value {
        Value::Int(_) => true,
        Value::Word(_) => true,
        Value::Null(_) => false,
    }
}

// Whether the value is a null or its own image.
fn is_kept(value: &Value, image: &Value) -> bool
    ensures answer { result ≡ keeps_constant (datum_of value.now, datum_of image.now) }
{
    !is_constant(value) || value == image
}

// Whether the values and their images, place by place, make up a function that keeps constants.
fn is_function(values: &[Value], images: &[Value]) -> bool
    ensures answer { result ≡ list_all (may_stand_def (pairs values.now images.now))
        (pairs values.now images.now) }
{
    values
        .iter()
        .zip(images)
        .all(|(value, image)| may_stand(value, image, values, images))
}

// Whether the pair of a value and its image may stand in such a function with the others.
fn may_stand(value: &Value, image: &Value, values: &[Value], images: &[Value]) -> bool
    ensures answer { result ≡ may_stand_def (pairs values.now images.now)
        (datum_of value.now, datum_of image.now) }
{
    if !is_kept(value, image) {
        return false;
    }
    values
        .iter()
        .zip(images)
        .all(|(other, its_image)| value != other || image == its_image)
}

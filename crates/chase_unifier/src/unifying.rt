//! The unifier of a tuple and a more specific one.
ghost use Rattle.std.specs.Prelude.{◌≡◌, true, length, IfOk};
ghost use Rattle.def_chase.specs.Values.{under};
ghost use Rattle.def_chase.specs.Specific.{more_specific, image_of};
ghost use Rattle.def_chase.specs.Unifier.{after, least_after, unifier as unifier_def};
ghost use Rattle.base_types.specs.Meanings.{datum_of, fact_of};
ghost use Rattle.base_types.specs.Maps.{images_of, moved_by};

use crate::nulls::give;
use crate::specific::image_of;
use base_types::{Memory, Sub, Tuple, Value};
use std::alloc::Global;

/// The unifier of a tuple and a more specific one: each null of the first is followed from image to image, until the walk stands
/// still or comes into a cycle; then the least value of the cycle is taken. It makes the two tuples equal. Its time grows with
/// the cube of the number of columns.
pub fn unifier(alloc: Global, tuple: &Tuple, specific: &Tuple) -> Result<Sub, Memory>
    requires { more_specific (fact_of specific.now) (fact_of tuple.now) ≡ true }
    ensures value { IfOk result (λ sub. moved_by (images_of sub) ≡
        unifier_def (fact_of tuple.now) (fact_of specific.now)) }
    ensures unites { IfOk result (λ sub. under (moved_by (images_of sub)) (fact_of specific.now) ≡
        under (moved_by (images_of sub)) (fact_of tuple.now)) }
{
    let mut sub = Sub::new(alloc);
    for value in tuple.values.as_slice() {
        let end = least_onwards(tuple, specific, far_along(tuple, specific, value));
        give(alloc, &mut sub, value, end)?;
    }
    Ok(sub)
}

// The value that the walk from the given one reaches after as many steps as there are columns. There it stands still, or is on a
// cycle.
fn far_along<'a>(tuple: &Tuple, specific: &'a Tuple, value: &'a Value) -> &'a Value
    ensures { datum_of result.now ≡ after (length tuple.now.values.items)
        (image_of (fact_of tuple.now) (fact_of specific.now)) (datum_of value.now) }
{
    let mut reached = value;
    for _step in 0..tuple.values.len() {
        reached = image_of(tuple, specific, reached);
    }
    reached
}

// The least among the value and the values that the walk reaches from it in as many steps as there are columns.
fn least_onwards<'a>(tuple: &Tuple, specific: &'a Tuple, value: &'a Value) -> &'a Value
    ensures { datum_of result.now ≡ least_after (length tuple.now.values.items)
        (image_of (fact_of tuple.now) (fact_of specific.now)) (datum_of value.now) }
{
    let mut next = value;
    let mut least = value;
    for _step in 0..tuple.values.len() {
        next = image_of(tuple, specific, next);
        if next < least {
            least = next;
        }
    }
    least
}

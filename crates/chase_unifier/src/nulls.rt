//! Substitutions, made null by null.
ghost use Rattle.std.specs.Prelude.{◌≡◌, OnOk};
ghost use Rattle.base_types.specs.Meanings.{datum_of};
ghost use Rattle.base_types.specs.Maps.{images_of};
ghost use Rattle.chase_unifier.specs.Moves.{give as give_def};

use base_types::{Memory, Sub, TryCopy, Value};
use std::alloc::Global;

/// Gives the value this image if it is a null. If it is refused, the substitution must be dropped.
pub(crate) fn give(alloc: Global, sub: &mut Sub, value: &Value, image: &Value) -> Result<(), Memory>
    ensures ok { OnOk result (images_of sub.new ≡
        give_def (images_of sub.old) (datum_of value.now) (datum_of image.now)) }
{
    match value {
        Value::Null(null) => sub.set(*null, image.copy(alloc)?),
        Value::Int(_) => Ok(()),
        Value::Word(_) => Ok(()),
    }
}

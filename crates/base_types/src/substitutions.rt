//! Substitutions: the value by which each null is replaced.
ghost use Rattle.std.specs.Prelude.{◌≡◌, ◌<◌, map, find, length, OnOk, OnErr, IfOk, IfSome};
ghost use Rattle.std.specs.List.{position_from};
ghost use Rattle.std.specs.Option.{option_map, option_copied};
ghost use Rattle.base_types.specs.Meanings.{null_of, datum_of, assignment_of};
ghost use Rattle.base_types.specs.Maps.{images_of, is_pair_of, no_image, give_image};

use crate::copying::TryCopy;
use crate::lists::List;
use crate::nulls::Null;
use crate::values::Value;
use def_memory::Memory;
use std::alloc::Global;
use std::marker::Model;

// A null and the value that replaces it.
#[derive(Debug, Drop)]
struct Assignment {
    null: Null,
    value: Value,
}

/// A finite map from nulls to values. Contracts see its list of pairs; `images_of` is the function that the list means.
#[derive(Debug, Drop)]
pub struct Sub {
    assignments: List<Assignment>,
}

impl Model for Sub {
    ghost use Rattle.std.specs.Prelude.{List, map};
    ghost use Rattle.def_chase.specs.Values.{NullName, Datum};

    ghost Value = { List (NullName × Datum) };

    ghost use Rattle.base_types.specs.Meanings.{assignment_of};

    ghost view = { λ s. map assignment_of s.assignments.items };
}

impl Sub {
    /// The map in which no null has an image.
    pub fn new(alloc: Global) -> Sub
        ensures empty { images_of result ≡ no_image }
    {
        Sub {
            assignments: List::new(alloc),
        }
    }

    /// The image of a null; None exactly if it has none.
    pub fn get(&self, null: Null) -> Option<&Value>
        ensures image { option_map datum_of (option_copied result) ≡
            images_of self.now (null_of null) }
    {
        match pair_of(self.assignments.as_slice(), null) {
            Some(pair) => Some(&pair.value),
            None => None,
        }
    }

    /// Gives the null this image, in place of the one that it had. If it is refused, the map is unchanged.
    pub fn set(&mut self, null: Null, value: Value) -> Result<(), Memory>
        ensures ok { OnOk result (images_of self.new ≡
            give_image (images_of self.old) (null_of null) (datum_of value)) }
        ensures err { OnErr result (self.new ≡ self.old) }
    {
        match place_of(self.assignments.as_slice(), null) {
            Some(at) => {
                self.assignments.put(at, Assignment { null, value });
                Ok(())
            }
            None => {
                self.assignments.push(Assignment { null, value })?;
                Ok(())
            }
        }
    }
}

// The first pair of the null, if it has one.
fn pair_of(assignments: &[Assignment], null: Null) -> Option<&Assignment>
    ensures pair { option_map assignment_of (option_copied result) ≡
        find (is_pair_of (null_of null)) (map assignment_of assignments.now) }
{
    assignments.iter().find(|pair| null == pair.null)
}

// The place of the null's first pair, if it has one.
fn place_of(assignments: &[Assignment], null: Null) -> Option<usize>
    ensures place { result ≡ position_from (is_pair_of (null_of null)) 0
        (map assignment_of assignments.now) }
    ensures within { IfSome result (λ at. at < length assignments.now) }
{
    assignments.iter().position(|pair| null == pair.null)
}

impl TryCopy for Assignment {
    ghost use Rattle.def_chase.specs.Values.{NullName, Datum};
    ghost use Rattle.base_types.specs.Meanings.{assignment_of};

    ghost Meaning = { NullName × Datum };

    ghost meaning = { assignment_of };

    fn copy(&self, alloc: Global) -> Result<Assignment, Memory>
        ensures same { IfOk result (λ copy. assignment_of copy ≡ assignment_of self.now) }
    {
        Ok(Assignment {
            null: self.null,
            value: self.value.copy(alloc)?,
        })
    }
}

impl TryCopy for Sub {
    ghost use Rattle.std.specs.Prelude.{List};
    ghost use Rattle.def_chase.specs.Values.{NullName, Datum};

    ghost Meaning = { List (NullName × Datum) };

    ghost meaning = { λ s. s };

    fn copy(&self, alloc: Global) -> Result<Sub, Memory>
        ensures same { IfOk result (λ copy. copy ≡ self.now) }
    {
        Ok(Sub {
            assignments: self.assignments.copy(alloc)?,
        })
    }
}

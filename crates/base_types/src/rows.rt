//! The values of a tuple, which its copies share.
ghost use Rattle.std.specs.Prelude.{◌≡◌, ◌↔◌, [], length, slice_get, IsTrue, IfOk};
ghost use Rattle.std.specs.Option.{option_copied};
ghost use Rattle.std.specs.Cmp.Lexicographic.{slice_cmp};
ghost use Rattle.def_chase.specs.Values.{datum_cmp};
ghost use Rattle.base_types.specs.Contents.{data_of};

use crate::copying::TryCopy;
use crate::lists::List;
use crate::orders::order;
use crate::values::Value;
use def_memory::Memory;
use std::alloc::Global;
use std::cmp::Ordering;
use std::marker::Model;
use std::sync::Arc;

/// The values of a row while it is made, value by value.
pub type ValueList = List<Value>;

/// The values of a tuple by column. They never change, and copies share them, so a copy allocates nothing. Contracts see their
/// list.
#[derive(Debug, Drop)]
pub struct Row {
    values: Option<Arc<ValueList>>,
}

impl Model for Row {
    ghost use Rattle.base_types.specs.Listed.{Listed, listed_code};
    ghost use Rattle.base_types.specs.declared.values.Value.{Value as ValueHeld};
    ghost use Rattle.base_types.specs.Held.{row_held};

    ghost Value = { Listed ValueHeld };

    ghost view = { λ r. row_held r.values };
}

impl Row {
    /// No values.
    pub fn empty() -> Row
        ensures empty { result.items ≡ [] }
    {
        Row { values: None }
    }

    /// The row of these values.
    pub fn new(alloc: Global, values: ValueList) -> Result<Row, Memory>
        ensures same { IfOk result (λ row. row.items ≡ values.items) }
    {
        match Arc::new(alloc, values) {
            Ok(values) => Ok(Row {
                values: Some(values),
            }),
            Err(_) => Err(Memory),
        }
    }

    /// All values in order.
    pub fn as_slice(&self) -> &[Value]
        ensures items { result.now ≡ self.now.items }
    {
        match &self.values {
            Some(values) => values.as_slice(),
            None => &[],
        }
    }

    /// The number of values.
    pub fn len(&self) -> usize
        ensures length { result ≡ length self.now.items }
    {
        self.as_slice().len()
    }

    /// Whether there is no value.
    pub fn is_empty(&self) -> bool
        ensures empty { IsTrue result ↔ (self.now.items ≡ []) }
    {
        self.as_slice().is_empty()
    }

    /// The value at a column, counted from 0; None exactly if the row ends before it.
    pub fn get(&self, column: usize) -> Option<&Value>
        ensures item { option_copied result ≡ slice_get self.now.items column }
    {
        self.as_slice().get(column)
    }

    /// The order of two rows: the first values that differ decide; if none differ, the lengths do.
    pub fn order(&self, other: &Row) -> Ordering
        ensures order { result ≡ slice_cmp datum_cmp (data_of self.now) (data_of other.now) }
    {
        order(self.as_slice(), other.as_slice())
    }

    /// Another handle to the same values. It is refused only if there are too many handles already.
    pub fn share(&self) -> Result<Row, Memory>
        ensures same { IfOk result (λ row. row ≡ self.now) }
    {
        match &self.values {
            Some(values) => Ok(Row {
                values: Some(Arc::try_clone(values)?),
            }),
            None => Ok(Row { values: None }),
        }
    }
}

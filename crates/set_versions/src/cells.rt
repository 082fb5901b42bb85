//! A tuple at one of its columns, as the key of an index.
ghost use Rattle.std.specs.Prelude.{◌≡◌, refl, IfOk};
ghost use Rattle.std.specs.Cmp.{on_total, eq_by_cmp_equiv, partial_equiv_from_equiv, po};
ghost use Rattle.std.specs.Option.{option_map, option_copied};
ghost use Rattle.std.specs.Ordering.{on, as_partial_cmp, eq_by_cmp};
ghost use Rattle.base_types.specs.Meanings.{datum_of};
ghost use Rattle.set_versions.specs.Cells.{value_in, values_cmp, cell_cmp, cell_total};
ghost use Rattle.set_versions.specs.Indexed.{cell_of};
ghost use Rattle.set_versions.specs.Spots.{spot_of};

use crate::handles::Handle;
use crate::spots::spot;
use base_tree::Share;
use base_types::{Tuple, Value};
use std::alloc::AllocError;
use std::cmp::Ordering;

/// A tuple at a column, counted from 0. Cells are ordered by column, by the value there, and by the tuple.
#[derive(Drop)]
pub struct Cell {
    pub column: usize,
    pub tuple: Handle,
}

impl Share for Cell {
    fn share(&self) -> Result<Cell, AllocError> {
        Ok(Cell {
            column: self.column,
            tuple: self.tuple.share()?,
        })
    }
}

impl Cell {
    /// The value in the column, if the tuple has the column.
    pub fn value(&self) -> Option<&Value>
        ensures { option_map datum_of (option_copied result) ≡ value_in (cell_of self.now) }
    {
        self.tuple.get().values.get(self.column)
    }

    /// The spot of the cell.
    pub fn spot(&self) -> u32
        ensures { result ≡ spot_of (cell_of self.now) }
    {
        spot(self.tuple.get().relation, self.column, self.value())
    }
}

/// The order of two values; no value comes before every value.
pub fn values_order(here: Option<&Value>, there: Option<&Value>) -> Ordering
    ensures { result
        ≡ values_cmp (option_map datum_of (option_copied here.entry))
        (option_map datum_of (option_copied there.entry)) }
{
    match (here, there) {
        (None, None) => Ordering::Equal,
        (None, Some(_)) => Ordering::Less,
        (Some(_), None) => Ordering::Greater,
        (Some(value), Some(other)) => value.cmp(other),
    }
}

impl PartialEq for Cell {
    ghost eq = { eq_by_cmp (on cell_of cell_cmp) };

    ghost laws = { partial_equiv_from_equiv (eq_by_cmp_equiv (on_total cell_of cell_total)) };

    fn eq(&self, other: &Cell) -> bool {
        self.cmp(other).is_eq()
    }
}

impl Eq for Cell {
    ghost laws = { eq_by_cmp_equiv (on_total cell_of cell_total) };
}

impl PartialOrd for Cell {
    ghost partial_cmp = { as_partial_cmp (on cell_of cell_cmp) };

    ghost laws = { po (on_total cell_of cell_total) (λ _ _. refl) };

    fn partial_cmp(&self, other: &Cell) -> Option<Ordering> {
        Some(self.cmp(other))
    }
}

impl Ord for Cell {
    ghost cmp = { on cell_of cell_cmp };

    ghost total = { on_total cell_of cell_total };

    ghost matches_partial_cmp = { λ _ _. refl };

    ghost matches_eq = { λ _ _. refl };

    fn cmp(&self, other: &Cell) -> Ordering {
        match self.column.cmp(&other.column) {
            Ordering::Less => Ordering::Less,
            Ordering::Equal => match values_order(self.value(), other.value()) {
                Ordering::Less => Ordering::Less,
                Ordering::Equal => self.tuple.cmp(&other.tuple),
                Ordering::Greater => Ordering::Greater,
            },
            Ordering::Greater => Ordering::Greater,
        }
    }
}

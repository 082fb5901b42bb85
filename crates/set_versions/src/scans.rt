//! Searches among the cells of the marked tuples.
ghost use Rattle.std.specs.Prelude.{◌≡◌};
ghost use Rattle.std.specs.Option.{option_map, option_copied};
ghost use Rattle.base_types.specs.Meanings.{fact_of, datum_of};
ghost use Rattle.set_versions.specs.Indexed.{cell_of};
ghost use Rattle.set_versions.specs.Marked.{stands};
ghost use Rattle.set_versions.specs.Zones.{place_in};
ghost use Rattle.set_versions.specs.ZoneLaws.{in_before, in_past};

use crate::cells::{Cell, values_order};
use crate::marks::Marks;
use crate::searches::place_in_relation;
use base_tree::{Search, Show};
use base_types::{Tuple, Value};
use std::cmp::Ordering;

/// A search for the cells with the value in the column whose tuple is of the relation, comes after `past`, if that is given, and
/// is seen by the update.
#[derive(Drop)]
pub struct Scan<'c> {
    pub number: u32,
    pub relation: u16,
    pub column: usize,
    pub value: &'c Value,
    pub past: Option<&'c Tuple>,
}

impl<'c> Search<Cell, Marks> for Scan<'c> {
    ghost place = { λ s k.
        place_in s.relation s.column (datum_of s.value.now) (option_map fact_of (option_copied
        s.past)) (cell_of k) };

    ghost passes = { λ s e. stands s.number e.1 };

    ghost stays_past = { λ s x y.
        in_past s.relation s.column (datum_of s.value.now) (option_map fact_of (option_copied
        s.past)) (cell_of x) (cell_of y) };

    ghost stays_before = { λ s x y.
        in_before s.relation s.column (datum_of s.value.now) (option_map fact_of (option_copied
        s.past)) (cell_of x) (cell_of y) };

    fn place(&self, key: &Cell) -> Ordering {
        match key.column.cmp(&self.column) {
            Ordering::Less => Ordering::Less,
            Ordering::Equal => match values_order(key.value(), Some(self.value)) {
                Ordering::Less => Ordering::Less,
                Ordering::Equal => place_in_relation(self.relation, self.past, key.tuple.get()),
                Ordering::Greater => Ordering::Greater,
            },
            Ordering::Greater => Ordering::Greater,
        }
    }

    fn passes(&self, entry: &(Cell, Marks)) -> bool {
        entry.1.stands(self.number)
    }
}

impl<'c> Show<Cell, Marks, Tuple> for Scan<'c> {
    ghost shown = { λ e. e.0.tuple };

    fn show(entry: &(Cell, Marks)) -> &Tuple
        ensures { result.now ≡ entry.now.0.tuple }
    {
        entry.0.tuple.get()
    }
}

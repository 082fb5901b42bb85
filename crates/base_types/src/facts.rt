//! Sets of tuples, with searches in order.
ghost use Rattle.std.specs.Prelude.{◌≡◌, List, map, find, IfSome};
ghost use Rattle.std.specs.Option.{option_map, option_copied};
ghost use Rattle.def_chase.specs.Cursors.{is_beyond, first_of, next_of, scan_of};
ghost use Rattle.def_chase.specs.Repository.{has, IsRepository};
ghost use Rattle.def_chase.specs.Values.{Fact};
ghost use Rattle.base_types.specs.Meanings.{fact_of, datum_of};
ghost use Rattle.base_types.specs.Candidates.{AreFurther, AreAllInColumn, is_holding};

use crate::candidates::{Candidates, Column};
use crate::nulls::OuterName;
use crate::tuples::Tuple;
use crate::values::Value;

/// A finite set of tuples. Its meaning, `tuples`, is the list of their meanings. Most calls also promise that this list is in
/// order. No call can fail.
pub trait Facts {
    ghost tuples: { Self → List Fact };

    /// A law: the tuples of a set are in order. The call does nothing else.
    fn is_in_order(&self)
        ensures in_order { IsRepository (tuples self.now) };

    /// Whether the tuple is in the set.
    fn contains(&self, tuple: &Tuple) -> bool
        ensures answer { result ≡ has (tuples self.now) (fact_of tuple.now) }
        ensures in_order { IsRepository (tuples self.now) };

    /// The least tuple of any relation above `past`, which need not be in the set, or of all tuples if none is given; None
    /// exactly if there is none.
    fn beyond(&self, past: Option<&Tuple>) -> Option<&Tuple>
        ensures found { option_map fact_of (option_copied result) ≡
            find (is_beyond (option_map fact_of (option_copied past.entry))) (tuples self.now) }
        ensures in_order { IsRepository (tuples self.now) };

    /// The least tuple of the relation; None exactly if it has none.
    fn first(&self, relation: u16) -> Option<&Tuple>
        ensures found { option_map fact_of (option_copied result) ≡
            first_of (tuples self.now) relation }
        ensures in_order { IsRepository (tuples self.now) };

    /// The least tuple above the given one in its relation; None exactly if there is none. The given one need not be in the set.
    fn after(&self, tuple: &Tuple) -> Option<&Tuple>
        ensures found { option_map fact_of (option_copied result) ≡
            next_of (tuples self.now) (fact_of tuple.now) }
        ensures in_order { IsRepository (tuples self.now) };

    /// The least tuple of the relation that has the value in the column, counted from 0, and is above `past` if that is given;
    /// None exactly if there is none.
    fn scan(
        &self,
        relation: u16,
        column: u16,
        value: &Value,
        past: Option<&Tuple>,
    ) -> Option<&Tuple>
        ensures found { option_map fact_of (option_copied result) ≡
            scan_of (tuples self.now) relation column (datum_of value.now)
            (option_map fact_of (option_copied past.entry)) }
        ensures in_order { IsRepository (tuples self.now) };

    /// The least tuple above `past`, if that is given, that holds a null of this name; None exactly if there is none.
    fn holding(&self, name: OuterName, past: Option<&Tuple>) -> Option<&Tuple>
        ensures found { option_map fact_of (option_copied result) ≡
            find (is_holding name.update name.place
            (option_map fact_of (option_copied past.entry))) (tuples self.now) }
        ensures in_order { IsRepository (tuples self.now) };

    /// The tuples of the relation that have the column's value and are above `past`, if these are given, as far as the set has
    /// them at hand. A set with no better way answers `Apart`.
    fn candidates(
        &self,
        _relation: u16,
        _column: Option<Column<'_>>,
        _past: Option<&Tuple>,
    ) -> Candidates<'_>
        ensures all { AreFurther result (tuples self.now) _relation _column.entry
            (option_copied _past.entry) }
    {
        Candidates::Apart
    }

    /// The values that the relation's tuples have in the column, if the set has them at hand. Other values may be among them.
    fn values(&self, _relation: u16, _column: u16) -> Option<&[Value]>
        ensures all { IfSome result (λ values.
            AreAllInColumn (map datum_of values.now) (tuples self.now) _relation _column) }
    {
        None
    }
}

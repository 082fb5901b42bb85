//! Searches among the marked tuples.
ghost use Rattle.std.specs.Prelude.{◌≡◌, ◌&&◌, Some, true};
ghost use Rattle.std.specs.Option.{option_map, option_copied};
ghost use Rattle.def_chase.specs.Cursors.{has_at as has_datum_at};
ghost use Rattle.base_types.specs.Meanings.{fact_of, datum_of};
ghost use Rattle.set_versions.specs.Marked.{stands};
ghost use Rattle.set_versions.specs.Zones.{place_beyond, place_of, place_lead};
ghost use Rattle.set_versions.specs.ZoneLaws.{beyond_before, beyond_past, of_before, of_past, lead_before, lead_past};

use crate::cells::values_order;
use crate::handles::Handle;
use crate::marks::Marks;
use crate::ranks::{rank, rank_at};
use base_tree::{Search, Show, Sought};
use base_types::{Tuple, Value};
use std::cmp::Ordering;
use std::marker::Model;

/// A search for one tuple, whether or not an update sees it. Contracts see the tuple.
#[derive(Drop)]
pub struct Held<'c> {
    rank: u64,
    tuple: &'c Tuple,
}

impl<'c> Model for Held<'c> {
    ghost use Rattle.std.specs.Prelude.{◌≡◌};
    ghost use Rattle.base_types.specs.Meanings.{fact_of};
    ghost use Rattle.base_types.specs.declared.tuples.Tuple.{Tuple};
    ghost use Rattle.set_versions.specs.Ranks.{rank_of};

    ghost Value = { Tuple };

    ghost view = { λ s. s.tuple.now };

    ghost invariant = { λ s. s.rank ≡ rank_of (fact_of s.tuple.now) };
}

impl<'c> Held<'c> {
    /// A search for the tuple.
    pub fn new(tuple: &'c Tuple) -> Held<'c>
        ensures tuple { result ≡ tuple.now }
    {
        Held {
            rank: rank(tuple),
            tuple,
        }
    }
}

impl<'c> Sought<Handle> for Held<'c> {
    ghost key = { λ s. s };

    fn order(&self, other: &Handle) -> Ordering {
        match self.rank.cmp(&other.rank()) {
            Ordering::Less => Ordering::Less,
            Ordering::Equal => self.tuple.cmp(other.get()),
            Ordering::Greater => Ordering::Greater,
        }
    }
}

/// A search for tuples that come after `past`, if that is given, and that the update sees.
#[derive(Drop)]
pub struct Beyond<'c> {
    pub number: u32,
    pub past: Option<&'c Tuple>,
}

impl<'c> Search<Handle, Marks> for Beyond<'c> {
    ghost place = { λ s k. place_beyond (option_map fact_of (option_copied s.past)) (fact_of k) };

    ghost passes = { λ s e. stands s.number e.1 };

    ghost stays_past = { λ s x y.
        beyond_past (option_map fact_of (option_copied s.past)) (fact_of x) (fact_of y) };

    ghost stays_before = { λ s x y.
        beyond_before (option_map fact_of (option_copied s.past)) (fact_of x) (fact_of y) };

    fn place(&self, key: &Handle) -> Ordering {
        place_after(self.past, key.get())
    }

    fn passes(&self, entry: &(Handle, Marks)) -> bool {
        entry.1.stands(self.number)
    }
}

/// A search for tuples of the relation that come after `past`, if that is given, and that the update sees.
#[derive(Drop)]
pub struct Zone<'c> {
    pub number: u32,
    pub relation: u16,
    pub past: Option<&'c Tuple>,
}

impl<'c> Search<Handle, Marks> for Zone<'c> {
    ghost place = { λ s k.
        place_of s.relation (option_map fact_of (option_copied s.past)) (fact_of k) };

    ghost passes = { λ s e. stands s.number e.1 };

    ghost stays_past = { λ s x y.
        of_past s.relation (option_map fact_of (option_copied s.past)) (fact_of x) (fact_of y) };

    ghost stays_before = { λ s x y.
        of_before s.relation (option_map fact_of (option_copied s.past)) (fact_of x) (fact_of y) };

    fn place(&self, key: &Handle) -> Ordering {
        place_in_relation(self.relation, self.past, key.get())
    }

    fn passes(&self, entry: &(Handle, Marks)) -> bool {
        entry.1.stands(self.number)
    }
}

impl<'c> Show<Handle, Marks, Tuple> for Zone<'c> {
    ghost shown = { λ e. e.0 };

    fn show(entry: &(Handle, Marks)) -> &Tuple
        ensures { result.now ≡ entry.now.0 }
    {
        entry.0.get()
    }
}

/// A search for tuples of the relation that come after `past`, if that is given.
#[derive(Drop)]
pub struct Onward<'c> {
    pub relation: u16,
    pub past: Option<&'c Tuple>,
}

impl<'c> Search<Handle, ()> for Onward<'c> {
    ghost place = { λ s k.
        place_of s.relation (option_map fact_of (option_copied s.past)) (fact_of k) };

    ghost passes = { λ _ _. true };

    ghost stays_past = { λ s x y.
        of_past s.relation (option_map fact_of (option_copied s.past)) (fact_of x) (fact_of y) };

    ghost stays_before = { λ s x y.
        of_before s.relation (option_map fact_of (option_copied s.past)) (fact_of x) (fact_of y) };

    fn place(&self, key: &Handle) -> Ordering {
        place_in_relation(self.relation, self.past, key.get())
    }

    fn passes(&self, _entry: &(Handle, ())) -> bool {
        true
    }
}

/// A search for tuples of the relation that have the value in the first column, come after `past`, if that is given, and that the
/// update sees. Contracts see it as a `Leading`.
#[derive(Drop)]
pub struct Lead<'c> {
    rank: u64,
    number: u32,
    relation: u16,
    value: &'c Value,
    past: Option<&'c Tuple>,
}

impl<'c> Model for Lead<'c> {
    ghost use Rattle.std.specs.Prelude.{◌≡◌, Some};
    ghost use Rattle.std.specs.Option.{option_map, option_copied};
    ghost use Rattle.base_types.specs.Meanings.{datum_of, fact_of};
    ghost use Rattle.set_versions.specs.Ranks.{rank_at};
    ghost use Rattle.set_versions.specs.Zones.{Leading};

    ghost Value = { Leading };

    ghost view = { λ s. record {
      number = s.number;
      relation = s.relation;
      value = datum_of s.value.now;
      past = option_map fact_of (option_copied s.past);
    } };

    ghost invariant = { λ s. s.rank ≡ rank_at s.relation (Some (datum_of s.value.now)) };
}

impl<'c> Lead<'c> {
    /// A search for these tuples.
    pub fn new(number: u32, relation: u16, value: &'c Value, past: Option<&'c Tuple>) -> Lead<'c>
        ensures search { result ≡ record {
          number = number;
          relation = relation;
          value = datum_of value.now;
          past = option_map fact_of (option_copied past.entry);
        } }
    {
        Lead {
            rank: rank_at(relation, Some(value)),
            number,
            relation,
            value,
            past,
        }
    }
}

impl<'c> Search<Handle, Marks> for Lead<'c> {
    ghost place = { λ s k. place_lead s.relation s.value s.past (fact_of k) };

    ghost passes = { λ s e. stands s.number e.1 };

    ghost stays_past = { λ s x y. lead_past s.relation s.value s.past (fact_of x) (fact_of y) };

    ghost stays_before = { λ s x y. lead_before s.relation s.value s.past (fact_of x) (fact_of y) };

    fn place(&self, key: &Handle) -> Ordering {
        match key.rank().cmp(&self.rank) {
            Ordering::Less => Ordering::Less,
            Ordering::Equal => place_at(self.relation, self.value, self.past, key.get()),
            Ordering::Greater => Ordering::Greater,
        }
    }

    fn passes(&self, entry: &(Handle, Marks)) -> bool {
        entry.1.stands(self.number)
    }
}

impl<'c> Show<Handle, Marks, Tuple> for Lead<'c> {
    ghost shown = { λ e. e.0 };

    fn show(entry: &(Handle, Marks)) -> &Tuple
        ensures { result.now ≡ entry.now.0 }
    {
        entry.0.get()
    }
}

/// A search for tuples of the relation that have the value in the column, come after `past`, if that is given, and that the
/// update sees. It looks at each tuple of the relation.
#[derive(Drop)]
pub struct Further<'c> {
    pub number: u32,
    pub relation: u16,
    pub column: usize,
    pub value: &'c Value,
    pub past: Option<&'c Tuple>,
}

impl<'c> Search<Handle, Marks> for Further<'c> {
    ghost place = { λ s k.
        place_of s.relation (option_map fact_of (option_copied s.past)) (fact_of k) };

    ghost passes = { λ s e. stands s.number e.1
        && has_datum_at s.column (datum_of s.value.now) (fact_of e.0) };

    ghost stays_past = { λ s x y.
        of_past s.relation (option_map fact_of (option_copied s.past)) (fact_of x) (fact_of y) };

    ghost stays_before = { λ s x y.
        of_before s.relation (option_map fact_of (option_copied s.past)) (fact_of x) (fact_of y) };

    fn place(&self, key: &Handle) -> Ordering {
        place_in_relation(self.relation, self.past, key.get())
    }

    fn passes(&self, entry: &(Handle, Marks)) -> bool {
        entry.1.stands(self.number) && has_at(entry.0.get(), self.column, self.value)
    }
}

impl<'c> Show<Handle, Marks, Tuple> for Further<'c> {
    ghost shown = { λ e. e.0 };

    fn show(entry: &(Handle, Marks)) -> &Tuple
        ensures { result.now ≡ entry.now.0 }
    {
        entry.0.get()
    }
}

// Whether the tuple comes before, among or after the tuples of the relation that have the first value and come after `past`, if
// that is given.
fn place_at(relation: u16, value: &Value, past: Option<&Tuple>, tuple: &Tuple) -> Ordering
    ensures { result ≡ place_lead relation (datum_of value.now)
        (option_map fact_of (option_copied past.entry)) (fact_of tuple.now) }
{
    match tuple.relation.cmp(&relation) {
        Ordering::Less => Ordering::Less,
        Ordering::Equal => match values_order(tuple.values.get(0), Some(value)) {
            Ordering::Less => Ordering::Less,
            Ordering::Equal => place_after(past, tuple),
            Ordering::Greater => Ordering::Greater,
        },
        Ordering::Greater => Ordering::Greater,
    }
}

// Whether the tuple comes before or among the tuples that come after `past`, if that is given.
pub(crate) fn place_after(past: Option<&Tuple>, tuple: &Tuple) -> Ordering
    ensures { result
        ≡ place_beyond (option_map fact_of (option_copied past.entry)) (fact_of tuple.now) }
{
    match past {
        Some(before) => {
            if before.cmp(tuple).is_lt() {
                return Ordering::Equal;
            }
            return Ordering::Less;
        }
        None => return Ordering::Equal,
    }
}

/// Whether the tuple comes before, among or after the tuples of the relation that come after `past`, if that is given.
pub fn place_in_relation(relation: u16, past: Option<&Tuple>, tuple: &Tuple) -> Ordering
    ensures { result
        ≡ place_of relation (option_map fact_of (option_copied past.entry)) (fact_of tuple.now) }
{
    match tuple.relation.cmp(&relation) {
        Ordering::Less => Ordering::Less,
        Ordering::Equal => place_after(past, tuple),
        Ordering::Greater => Ordering::Greater,
    }
}

// Whether the tuple has the value in the column.
fn has_at(tuple: &Tuple, column: usize, value: &Value) -> bool
    ensures answer { result ≡ has_datum_at column (datum_of value.now) (fact_of tuple.now) }
{
    match tuple.values.get(column) {
        Some(there) => value == there,
        None => false,
    }
}

//! The tests by which a cursor decides whether to stop at a tuple.
ghost use Rattle.std.specs.Prelude.{◌≡◌, ◌&&◌};
ghost use Rattle.std.specs.Option.{option_map, option_copied};
ghost use Rattle.def_chase.specs.Cursors.{is_of, kept_if, is_scanned as is_scanned_tuple, is_beyond as is_beyond_tuple, has_at as has_datum_at};
ghost use Rattle.base_types.specs.Candidates.{column_of, is_candidate as is_candidate_tuple};
ghost use Rattle.base_types.specs.Meanings.{fact_of, datum_of};

use base_types::{Column, Tuple, Value};

/// Whether the tuple is of the relation, beyond `past` if that is given, and has the value in the column.
pub fn is_scanned(
    tuple: &Tuple,
    relation: u16,
    column: u16,
    value: &Value,
    past: Option<&Tuple>,
) -> bool
    ensures answer { result ≡ is_scanned_tuple relation column (datum_of value.now)
        (option_map fact_of (option_copied past.entry)) (fact_of tuple.now) }
{
    tuple.relation == relation && has_at(tuple, column, value) && is_beyond(past, tuple)
}

/// Whether the tuple is of the relation and has the column's value, if a column is given.
pub fn is_candidate(tuple: &Tuple, relation: u16, column: Option<Column<'_>>) -> bool
    ensures answer { result ≡ is_candidate_tuple relation (option_map column_of column.entry)
        (fact_of tuple.now) }
{
    if tuple.relation != relation {
        return false;
    }
    match column {
        Some(column) => has_at(tuple, column.number, column.value),
        None => true,
    }
}

/// Whether the tuple is of the relation, has the column's value, if a column is given, and comes after `past`, if that is given.
pub fn is_further(
    tuple: &Tuple,
    relation: u16,
    column: Option<Column<'_>>,
    past: Option<&Tuple>,
) -> bool
    ensures answer { result ≡ (is_candidate_tuple relation (option_map column_of column.entry)
        (fact_of tuple.now) && is_beyond_tuple (option_map fact_of (option_copied past.entry))
        (fact_of tuple.now)) }
{
    is_candidate(tuple, relation, column) && is_beyond(past, tuple)
}

/// Whether the tuple comes after `past`, if that is given.
pub fn is_beyond(past: Option<&Tuple>, tuple: &Tuple) -> bool
    ensures answer { result ≡ is_beyond_tuple (option_map fact_of (option_copied past.entry))
        (fact_of tuple.now) }
{
    match past {
        Some(before) => before.cmp(tuple).is_lt(),
        None => true,
    }
}

// Whether the tuple has the value in the column.
fn has_at(tuple: &Tuple, column: u16, value: &Value) -> bool
    ensures answer { result ≡ has_datum_at column (datum_of value.now) (fact_of tuple.now) }
{
    match tuple.values.get(column as usize) {
        Some(there) => value == there,
        None => false,
    }
}

/// The tuple that was found, if it is of the relation.
pub fn of_relation(found: Option<&Tuple>, relation: u16) -> Option<&Tuple>
    ensures kept { option_map fact_of (option_copied result) ≡
        kept_if (is_of relation) (option_map fact_of (option_copied found.entry)) }
{
    match found {
        Some(tuple) => {
            if tuple.relation == relation {
                Some(tuple)
            } else {
                None
            }
        }
        None => None,
    }
}

//! The end of the step of an insertion or a deletion, once it is known whether its tuple is there.
ghost use Rattle.std.specs.Prelude.{◌≡◌, OnOk, OnErr};
ghost use Rattle.std.specs.Option.{option_map};
ghost use Rattle.base_types.specs.Meanings.{fact_of, operation_of};
ghost use Rattle.chase_query.specs.Meanings.{query_of};
ghost use Rattle.chase_update.specs.PointMeanings.{HasWritten, IsWriting, tuple_asked_at, tuple_at, tuple_in};

use crate::points::Point;
use base_types::{Memory, Operation, Tuple, Write, WriteList};
use chase_query::Query;
use std::mem;

/// At the end of the own writes, an insertion writes the tuple of the query if it is not there, a deletion if it is. A look comes
/// next. If it is refused, everything is unchanged.
pub(crate) fn write(
    operation: &Operation,
    point: &mut Point,
    own: &mut WriteList,
    there: bool,
) -> Result<(), Memory>
    requires { IsWriting point.old }
    ensures written { OnOk result
        (HasWritten (operation_of operation.now) (tuple_at point.old) there own.old own.new) }
    ensures look { OnOk result (point.new ≡ Point.Look) }
    ensures stays { OnErr result (point.new ≡ point.old) }
    ensures own { OnErr result (own.new.items ≡ own.old.items) }
{
    own.reserve(1)?;
    match (operation, there, asked(mem::replace(point, Point::Look))) {
        (Operation::Insert(_), false, Some(tuple)) => own.push(Write::Insert(tuple))?,
        (Operation::Delete(_), true, Some(tuple)) => own.push(Write::Delete(tuple))?,
        _ => {}
    }
    Ok(())
}

// The tuple of the query, if the point has such a query.
fn asked(point: Point) -> Option<Tuple>
    ensures { option_map fact_of result ≡ tuple_asked_at point }
{
    match point {
        Point::Reading(reading) => tuple_of(reading.query),
        _ => None,
    }
}

// The tuple of the query, if it asks whether a tuple is there.
fn tuple_of(query: Query) -> Option<Tuple>
    ensures { option_map fact_of result ≡ tuple_in (query_of query) }
{
    match query {
        Query::Present(tuple) => Some(tuple),
        _ => None,
    }
}

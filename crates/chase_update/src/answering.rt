//! A step of an operation or of a look goes on with an answer.
ghost use Rattle.std.specs.Prelude.{◌≡◌, ◌+◌, ◌<◌, IfOk, IfSome, IfNone};
ghost use Rattle.base_types.specs.Meanings.{operation_of};
ghost use Rattle.chase_query.specs.Meanings.{query_of, reply_of};
ghost use Rattle.chase_query.specs.Kinds.{IsOfKind};
ghost use Rattle.chase_update.specs.Rows.{begun_in};
ghost use Rattle.chase_update.specs.PointMeanings.{reading_of};
ghost use Rattle.chase_update.specs.TurnMeanings.{HasGoneOnAs, IsTurnOf};

use crate::looking::{found_force, found_violation};
use crate::readings::Reading;
use crate::replacing::{found_replaced, found_replacement};
use crate::rows::Row;
use crate::starting::found_name;
use crate::turns::Turn;
use base_limits::Mappings;
use base_types::{Memory, Operation};
use chase_query::Reply;
use chase_repair::Fresh;
use std::alloc::Global;

/// Goes on with the answer to the present query. It returns None if the query asks whether the operation's tuple is there; the
/// caller then writes the tuple in place.
pub(crate) fn answered(
    alloc: Global,
    operation: &Operation,
    fresh: Fresh,
    reading: &Reading,
    answer: &Reply,
    mappings: &Mappings<'_>,
) -> Result<Option<Turn>, Memory>
    requires room { fresh.drawn + 64 < 4294967296 }
    requires kind { IsOfKind mappings.now (query_of reading.now.query) (reply_of answer.now) }
    ensures value { IfOk result (λ turn. IfSome turn
        (HasGoneOnAs mappings.now fresh (operation_of operation.now) (reading_of reading.now)
        (reply_of answer.now))) }
    ensures turn { IfOk result
        (λ turn. IfSome turn (IsTurnOf (begun_in (reading_of reading.now)))) }
    ensures writing { IfOk result (λ turn. IfNone turn (reading.now.row ≡ Row.Writing)) }
{
    let turn = match &reading.row {
        Row::Writing => return Ok(None),
        Row::Naming(naming) => found_name(alloc, operation, &**naming, answer)?,
        Row::Replacing(name) => found_replaced(alloc, operation, *name, answer)?,
        Row::Renaming(renaming) => found_replacement(alloc, &**renaming, answer)?,
        Row::Forcing(place) => found_force(alloc, fresh.update, *place, answer, mappings)?,
        Row::Violating(place) => {
            found_violation(alloc, operation, fresh, *place, answer, mappings)?
        }
    };
    Ok(Some(turn))
}

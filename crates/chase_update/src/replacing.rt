//! The step of a replacement: the tuples that hold the null are rewritten.
ghost use Rattle.std.specs.Prelude.{List, IfOk};
ghost use Rattle.def_chase.specs.Values.{Unknown};
ghost use Rattle.def_chase.specs.Mappings.{Rule};
ghost use Rattle.def_chase.specs.Queries.{Occurs};
ghost use Rattle.base_types.specs.Contents.{facts_of};
ghost use Rattle.base_types.specs.Meanings.{null_of, datum_of, operation_of};
ghost use Rattle.chase_query.specs.Meanings.{reply_of};
ghost use Rattle.chase_query.specs.Kinds.{IsOfKind};
ghost use Rattle.def_steps.specs.Attempts.{Start};
ghost use Rattle.chase_update.specs.RowMeanings.{renaming_of};
ghost use Rattle.chase_update.specs.Rows.{Replacing, rewriting};
ghost use Rattle.chase_update.specs.TurnMeanings.{AlwaysComesTo, HasGoneOn, HasGoneOnFor, IsTurnOf, Replaces};

use crate::found::{holders, standing_for};
use crate::readings::Reading;
use crate::rows::{Renaming, Row};
use crate::turns::Turn;
use base_types::{Memory, Null, Operation, Sub, TryCopy, TupleList, Value, WriteList};
use chase_query::{Query, Reply};
use chase_repair::{boxed, rewrite};
use std::alloc::Global;

/// Goes on with the answer to the look-up of the null to be replaced.
pub(crate) fn found_replaced(
    alloc: Global,
    operation: &Operation,
    name: Null,
    answer: &Reply,
) -> Result<Turn, Memory>
    requires { (ms : List Rule) → IsOfKind ms (Occurs name.update name.place)
        (reply_of answer.now) }
    ensures value { IfOk result
        (HasGoneOnFor (operation_of operation.now) (Replacing (null_of name))
        (reply_of answer.now)) }
    ensures turn { IfOk result (IsTurnOf Start) }
{
    match holders(answer) {
        Some(tuples) => match standing_for(alloc, name, tuples)? {
            Value::Null(null) => replaced(alloc, operation, null, tuples),
            _ => unreachable!(),
        },
        None => Ok(Turn::refuses(alloc, name)),
    }
}

// Looks up the value that replaces the null, if that is a null too; otherwise rewrites the tuples that hold it.
fn replaced(
    alloc: Global,
    operation: &Operation,
    null: Null,
    tuples: &TupleList,
) -> Result<Turn, Memory>
    ensures value { IfOk result
        (Replaces (operation_of operation.now) (Unknown (null_of null)) (facts_of tuples.now)) }
    ensures turn { IfOk result (IsTurnOf Start) }
{
    match operation {
        Operation::Insert(_) => Ok(Turn::looks(WriteList::new(alloc))),
        Operation::Delete(_) => Ok(Turn::looks(WriteList::new(alloc))),
        Operation::Replace(_, value) => match value {
            Value::Null(name) => {
                let renaming = Renaming {
                    name: *name,
                    null,
                    tuples: tuples.copy(alloc)?,
                };
                Ok(Turn::Asks(Reading {
                    query: Query::Occurs(name.outer_name()),
                    row: Row::Renaming(boxed(alloc, renaming)?),
                }))
            }
            Value::Int(_) => rewritten(alloc, null, value.copy(alloc)?, tuples),
            Value::Word(_) => rewritten(alloc, null, value.copy(alloc)?, tuples),
        },
        Operation::Enact(_) => Ok(Turn::looks(WriteList::new(alloc))),
    }
}

/// Goes on with the answer to the look-up of the null that replaces the other one in these tuples.
pub(crate) fn found_replacement(
    alloc: Global,
    renaming: &Renaming,
    answer: &Reply,
) -> Result<Turn, Memory>
    ensures value { IfOk result
        (HasGoneOn (renaming_of renaming.now) (reply_of answer.now)) }
    ensures turn { IfOk result (IsTurnOf Start) }
{
    match holders(answer) {
        Some(holding) => {
            let value = standing_for(alloc, renaming.name, holding)?;
            rewritten(alloc, renaming.null, value, &renaming.tuples)
        }
        None => Ok(Turn::refuses(alloc, renaming.name)),
    }
}

// Rewrites the tuples with the value in place of the null.
fn rewritten(alloc: Global, null: Null, value: Value, tuples: &TupleList) -> Result<Turn, Memory>
    ensures value { IfOk result
        (AlwaysComesTo (rewriting (Unknown (null_of null)) (datum_of value)
        (facts_of tuples.now))) }
    ensures turn { IfOk result (IsTurnOf Start) }
{
    let mut sub = Sub::new(alloc);
    sub.set(null, value)?;
    Ok(Turn::looks(rewrite(alloc, &sub, tuples)?))
}

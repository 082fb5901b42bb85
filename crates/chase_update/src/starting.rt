//! The step of an insertion or a deletion: its named nulls are looked up, then it is asked whether its tuple is there.
ghost use Rattle.std.specs.Prelude.{◌≡◌, [], drop, map, IfOk};
ghost use Rattle.def_chase.specs.Mappings.{force as force_def};
ghost use Rattle.base_types.specs.Meanings.{null_of, datum_of, fact_of, operation_of};
ghost use Rattle.chase_query.specs.Meanings.{reply_of};
ghost use Rattle.def_steps.specs.Attempts.{Start};
ghost use Rattle.def_steps.specs.Rewriting.{nulls_in as nulls_in_def};
ghost use Rattle.def_steps.specs.Steps.{start as start_def, is_yes as is_yes_def};
ghost use Rattle.chase_update.specs.Rows.{Writing};
ghost use Rattle.chase_update.specs.RowMeanings.{found_with, naming_of, resolved_of};
ghost use Rattle.chase_update.specs.TurnMeanings.{AsksPresent, ComesTo, HasGoneOnFor, IsTurnOf, LooksUp, StandsAt};

use crate::found::{ResolvedNull, ResolvedNullList, holders, resolved, standing_for};
use crate::readings::Reading;
use crate::rows::{Naming, NullList, Row};
use crate::turns::Turn;
use crate::writes::one;
use base_types::{
    FORCE_RELATION, Memory, Operation, TryCopy, Tuple, Value, ValueList, Write, WriteList,
};
use chase_query::{Query, Reply};
use chase_repair::{boxed, nulls_in};
use std::alloc::Global;

/// Begins the step of the operation.
pub(crate) fn start(alloc: Global, operation: &Operation) -> Result<Turn, Memory>
    ensures value { IfOk result
        (ComesTo (operation_of operation.now) (start_def (operation_of operation.now))) }
    ensures turn { IfOk result (IsTurnOf Start) }
{
    match operation {
        Operation::Insert(tuple) => look_up(alloc, operation, tuple),
        Operation::Delete(tuple) => look_up(alloc, operation, tuple),
        Operation::Replace(name, _) => Ok(Turn::Asks(Reading {
            query: Query::Occurs(name.outer_name()),
            row: Row::Replacing(*name),
        })),
        Operation::Enact(mapping) => Ok(Turn::looks(one(
            alloc,
            Write::Insert(force(alloc, *mapping)?),
        )?)),
    }
}

// Begins to look up the named nulls of the operation's tuple.
fn look_up(alloc: Global, operation: &Operation, tuple: &Tuple) -> Result<Turn, Memory>
    ensures value { IfOk result
        (LooksUp (operation_of operation.now) [] (nulls_in_def (fact_of tuple.now).values)) }
    ensures turn { IfOk result (IsTurnOf Start) }
{
    let names = nulls_in(alloc, tuple.values.as_slice())?;
    next_name(alloc, operation, ResolvedNullList::new(alloc), names, 0)
}

/// The tuple which says that the mapping has been put in force.
pub(crate) fn force(alloc: Global, mapping: u16) -> Result<Tuple, Memory>
    ensures value { IfOk result (λ tuple. fact_of tuple ≡ force_def mapping) }
{
    let mut values = ValueList::new(alloc);
    values.push(Value::Int(i64::from(mapping)))?;
    Tuple::new(alloc, FORCE_RELATION, values)
}

// Asks for the named null at place `next`; `found` are the nulls before it. After the last one it asks whether the operation's
// tuple is there.
fn next_name(
    alloc: Global,
    operation: &Operation,
    found: ResolvedNullList,
    names: NullList,
    next: usize,
) -> Result<Turn, Memory>
    ensures value { IfOk result
        (LooksUp (operation_of operation.now) (map resolved_of found.items)
        (map null_of (drop next names.items))) }
    ensures turn { IfOk result (IsTurnOf Start) }
{
    match names.get(next) {
        Some(name) => {
            let name = *name;
            let naming = Naming {
                found,
                name,
                names,
                next: next + 1,
            };
            Ok(Turn::Asks(Reading {
                query: Query::Occurs(name.outer_name()),
                row: Row::Naming(boxed(alloc, naming)?),
            }))
        }
        None => present(alloc, operation, found.as_slice()),
    }
}

// Asks whether the operation's tuple, with the named nulls resolved, is there.
fn present(alloc: Global, operation: &Operation, found: &[ResolvedNull]) -> Result<Turn, Memory>
    ensures value { IfOk result
        (AsksPresent (operation_of operation.now) (map resolved_of found.now)) }
    ensures turn { IfOk result (IsTurnOf Start) }
{
    match operation {
        Operation::Insert(tuple) => Ok(asks_for(resolved(alloc, found, tuple)?)),
        Operation::Delete(tuple) => Ok(asks_for(resolved(alloc, found, tuple)?)),
        Operation::Replace(_, _) => Ok(Turn::looks(WriteList::new(alloc))),
        Operation::Enact(_) => Ok(Turn::looks(WriteList::new(alloc))),
    }
}

// Asks whether the tuple is there. By the answer the operation decides whether to write it.
fn asks_for(tuple: Tuple) -> Turn
    ensures tree { StandsAt (Writing (fact_of tuple)) result }
    ensures turn { IsTurnOf Start result }
{
    Turn::Asks(Reading {
        query: Query::Present(tuple),
        row: Row::Writing,
    })
}

/// Goes on with the answer to the look-up of a named null.
pub(crate) fn found_name(
    alloc: Global,
    operation: &Operation,
    naming: &Naming,
    answer: &Reply,
) -> Result<Turn, Memory>
    ensures value { IfOk result
        (HasGoneOnFor (operation_of operation.now) (naming_of naming.now) (reply_of answer.now)) }
    ensures turn { IfOk result (IsTurnOf Start) }
{
    match holders(answer) {
        Some(tuples) => {
            let value = standing_for(alloc, naming.name, tuples)?;
            let found = with_standing(alloc, naming, value)?;
            let names = NullList::from_vec(Vec::from_slice(alloc, naming.names.as_slice())?);
            next_name(alloc, operation, found, names, naming.next)
        }
        None => Ok(Turn::refuses(alloc, naming.name)),
    }
}

// The pairs found before, and the pair of the named null with the value.
fn with_standing(alloc: Global, naming: &Naming, value: Value) -> Result<ResolvedNullList, Memory>
    ensures value { IfOk result (λ found.
        map resolved_of found.items ≡ found_with naming.now (datum_of value)) }
{
    let mut found = naming.found.copy(alloc)?;
    found.push(ResolvedNull {
        name: naming.name,
        value,
    })?;
    Ok(found)
}

/// Whether the answer is yes.
pub(crate) fn is_yes(answer: &Reply) -> bool
    ensures answer { result ≡ is_yes_def (reply_of answer.now) }
{
    matches!(answer, Reply::Yes)
}

//! The step of a look: mapping by mapping up to the first violation, whose repair it begins.
ghost use Rattle.std.specs.Prelude.{◌+◌, ◌<◌, ◌≤◌, IfOk};
ghost use Rattle.base_types.specs.Contents.{facts_of};
ghost use Rattle.base_types.specs.Meanings.{rule_of, operation_of, heading_of};
ghost use Rattle.chase_query.specs.Meanings.{reply_of};
ghost use Rattle.def_steps.specs.Attempts.{Look};
ghost use Rattle.chase_update.specs.Rows.{Forcing, Violating};
ghost use Rattle.chase_update.specs.TurnMeanings.{HasGoneOnAs, HasLookedOn, IsTurnOf, LooksAt, LooksFrom, Repairs, StandsAt};

use crate::moves::Move;
use crate::passing::{next_in_play, violation_asked};
use crate::points::Point;
use crate::readings::Reading;
use crate::rows::Row;
use crate::starting::{force, is_yes};
use crate::turns::Turn;
use base_limits::Mappings;
use base_types::{Direction, Mapping, Memory, Operation, TupleList, WriteList};
use chase_query::{Query, Reply};
use chase_repair::{Fresh, Repair, existential};
use std::alloc::Global;

/// Looks at the mappings from place `from` on, up to the next one that may be in force for an update of this number.
pub(crate) fn look(
    alloc: Global,
    number: u32,
    from: usize,
    mappings: &Mappings<'_>,
) -> Result<Turn, Memory>
    ensures value { IfOk result (LooksFrom mappings.now number from) }
    ensures turn { IfOk result (IsTurnOf Look) }
{
    match next_in_play(number, from, mappings) {
        Some((place, mapping)) => look_at(alloc, place, mapping),
        None => Ok(Turn::ends(alloc)),
    }
}

// Asks for the first violation of the mapping if it is in force from the start; otherwise asks first whether it has been put in
// force.
fn look_at(alloc: Global, place: u16, mapping: &Mapping) -> Result<Turn, Memory>
    ensures value { IfOk result (LooksAt place (rule_of mapping.now)) }
    ensures turn { IfOk result (IsTurnOf Look) }
{
    if mapping.since == 0 {
        Ok(asks_violation(place))
    } else {
        asks_force(alloc, place)
    }
}

// Asks for the first violation of the mapping.
fn asks_violation(place: u16) -> Turn
    ensures tree { StandsAt (Violating place) result }
    ensures turn { IsTurnOf Look result }
{
    Turn::Asks(violation_asked(place))
}

// Asks whether the mapping has been put in force.
fn asks_force(alloc: Global, place: u16) -> Result<Turn, Memory>
    ensures tree { IfOk result (StandsAt (Forcing place)) }
    ensures turn { IfOk result (IsTurnOf Look) }
{
    Ok(Turn::Asks(Reading {
        query: Query::Present(force(alloc, place)?),
        row: Row::Forcing(place),
    }))
}

/// Goes on with the answer whether the mapping has been put in force.
pub(crate) fn found_force(
    alloc: Global,
    number: u32,
    place: u16,
    answer: &Reply,
    mappings: &Mappings<'_>,
) -> Result<Turn, Memory>
    ensures value { IfOk result
        (HasLookedOn mappings.now number (Forcing place) (reply_of answer.now)) }
    ensures turn { IfOk result (IsTurnOf Look) }
{
    if is_yes(answer) && (place as usize) < mappings.len() {
        Ok(asks_violation(place))
    } else {
        look(alloc, number, place as usize + 1, mappings)
    }
}

/// Goes on with the answer for the first violation of the mapping: begins its repair, or looks at the next mapping.
pub(crate) fn found_violation(
    alloc: Global,
    operation: &Operation,
    fresh: Fresh,
    place: u16,
    answer: &Reply,
    mappings: &Mappings<'_>,
) -> Result<Turn, Memory>
    requires room { fresh.drawn + 64 < 4294967296 }
    ensures value { IfOk result
        (HasGoneOnAs mappings.now fresh (operation_of operation.now) (Violating place)
        (reply_of answer.now)) }
    ensures turn { IfOk result (IsTurnOf Look) }
{
    match answer {
        Reply::Image(image) => match mappings.get(place as usize) {
            Some(mapping) => repair(alloc, operation.direction(), fresh, place, mapping, image),
            None => look(alloc, fresh.update, place as usize + 1, mappings),
        },
        Reply::Yes => look(alloc, fresh.update, place as usize + 1, mappings),
        Reply::No => look(alloc, fresh.update, place as usize + 1, mappings),
        Reply::Nothing => look(alloc, fresh.update, place as usize + 1, mappings),
        Reply::Tuples(_) => look(alloc, fresh.update, place as usize + 1, mappings),
    }
}

// Begins the repair of the violation in that direction.
fn repair(
    alloc: Global,
    direction: Direction,
    fresh: Fresh,
    place: u16,
    mapping: &Mapping,
    image: &TupleList,
) -> Result<Turn, Memory>
    requires few { (rule_of mapping.now).existential ≤ 64 }
    requires room { fresh.drawn + 64 < 4294967296 }
    ensures value { IfOk result
        (Repairs fresh (heading_of direction) place (rule_of mapping.now) (facts_of image.now)) }
    ensures turn { IfOk result (IsTurnOf Look) }
{
    match direction {
        Direction::Forward => {
            let repair = Repair::forward(alloc, place, mapping, image, fresh)?;
            Ok(Turn::Moves(Move {
                writes: WriteList::new(alloc),
                point: Point::Repair(repair),
                drawn: existential(mapping) as u32,
            }))
        }
        Direction::Backward => {
            let (repair, writes) = Repair::backward(alloc, place, image)?;
            Ok(Turn::Moves(Move {
                writes,
                point: Point::Repair(repair),
                drawn: 0,
            }))
        }
    }
}

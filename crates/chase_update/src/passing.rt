//! The mapping that a look comes to next, and a look that goes on to it in place.
ghost use Rattle.std.specs.Prelude.{◌≡◌, ◌+◌, ◌≤◌, true, false, Some, IfSome, IfNone};
ghost use Rattle.std.specs.List.{slice_get};
ghost use Rattle.def_chase.specs.Queries.{Query as QueryMeant};
ghost use Rattle.base_types.specs.Meanings.{rule_of};
ghost use Rattle.chase_query.specs.Meanings.{reply_of};
ghost use Rattle.def_steps.specs.Attempts.{Look};
ghost use Rattle.chase_update.specs.Looks.{AsksNext, EndsFrom, LooksOn, SameLook};
ghost use Rattle.chase_update.specs.Rows.{Violating, begun_in};
ghost use Rattle.chase_update.specs.RowMeanings.{row_of};
ghost use Rattle.chase_update.specs.PointMeanings.{reading_of};

use crate::readings::Reading;
use crate::rows::Row;
use base_limits::Mappings;
use base_types::Mapping;
use chase_query::{Query, Reply};

/// If the answer finds no violation of the mapping, and the next mapping that may be in force is so from the start, asks for that
/// one's first violation in place and returns true. Otherwise the step is unchanged.
pub(crate) fn looks_on(
    reading: &mut Reading,
    number: u32,
    answer: &Reply,
    mappings: &Mappings<'_>,
) -> bool
    ensures goes { result ≡ true →
        LooksOn mappings.now number (reading_of reading.old) (reply_of answer.now)
        (reading_of reading.new) }
    ensures phase { begun_in (reading_of reading.new) ≡ begun_in (reading_of reading.old) }
    ensures stays { result ≡ false → reading_of reading.new ≡ reading_of reading.old }
{
    match next_looked_at(&reading.row, number, answer, mappings) {
        Some(next) => {
            *reading = violation_asked(next);
            true
        }
        None => false,
    }
}

// The place of the next mapping that may be in force, if that one is in force from the start and the answer finds no violation of
// this row's mapping.
fn next_looked_at(row: &Row, number: u32, answer: &Reply, mappings: &Mappings<'_>) -> Option<u16>
    ensures goes { IfSome result (λ next.
        (q : QueryMeant) → LooksOn mappings.now number (row_of row.now q) (reply_of answer.now)
        (Violating next)) }
    ensures phase { IfSome result (λ next. (q : QueryMeant) → begun_in (row_of row.now q) ≡ Look) }
{
    match (row, answer) {
        (Row::Violating(place), Reply::Nothing) => {
            next_from_start(number, *place as usize + 1, mappings)
        }
        _ => None,
    }
}

/// The place of the next mapping from place `from` on that may be in force for an update of this number, if it is in
/// force from the start.
pub(crate) fn next_from_start(number: u32, from: usize, mappings: &Mappings<'_>) -> Option<u16>
    ensures after { IfSome result (λ next. from ≤ next) }
    ensures look { IfSome result (AsksNext mappings.now number from) }
{
    match next_in_play(number, from, mappings) {
        Some((place, mapping)) => if mapping.since == 0 {
            Some(place)
        } else {
            None
        },
        None => None,
    }
}

/// The next mapping from place `from` on that may be in force for an update of this number, with its place.
pub(crate) fn next_in_play<'a>(
    number: u32,
    from: usize,
    mappings: &Mappings<'a>,
) -> Option<(u16, &'a Mapping)>
    ensures after { IfSome result (λ next. from ≤ next.0) }
    ensures found { IfSome result (λ at. slice_get mappings.now at.0 ≡ Some (rule_of at.1.now)) }
    ensures since { IfSome result (λ next. next.1.now.since ≤ number) }
    ensures passed { IfSome result (λ at. SameLook mappings.now number at.0 from) }
    ensures ends { IfNone result (EndsFrom mappings.now number from) }
{
    for place in from..mappings.len() {
        if let Some(mapping) = in_play(number, place, mappings) {
            return Some((place as u16, mapping));
        }
    }
    None
}

// The mapping at the place, if it may be in force for an update of this number.
fn in_play<'a>(number: u32, place: usize, mappings: &Mappings<'a>) -> Option<&'a Mapping>
    ensures passed { IfNone result (SameLook mappings.now number place (place + 1)) }
    ensures found { IfSome result (λ m. slice_get mappings.now place ≡ Some (rule_of m.now)) }
    ensures since { IfSome result (λ mapping. mapping.now.since ≤ number) }
{
    match mappings.get(place) {
        Some(mapping) => if mapping.since <= number {
            Some(mapping)
        } else {
            None
        },
        None => None,
    }
}

/// The reading that asks for the first violation of the mapping.
pub(crate) fn violation_asked(place: u16) -> Reading
    ensures row { reading_of result ≡ Violating place }
{
    Reading {
        query: Query::Violation(place),
        row: Row::Violating(place),
    }
}

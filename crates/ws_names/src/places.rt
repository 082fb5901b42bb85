//! The table of an update: the place of each cause that draws an unknown.
ghost use Rattle.std.specs.Prelude.{◌≡◌, OnOk, IfOk, OnErr, map};
ghost use Rattle.std.specs.Option.{option_map, option_copied};
ghost use Rattle.def_workspace.specs.Places.{Place as PlaceMeant, among, giving, greater as greater_of, greatest as greatest_of, place_found};
ghost use Rattle.ws_names.specs.Meanings.{cause_of, place_of, places_of};

use crate::causes::Cause;
use base_types::{List, Memory, NumberList, TryCopy};
use std::alloc::Global;

/// A cause with its place.
#[derive(Drop)]
pub struct Place {
    pub cause: Cause,
    pub number: u32,
}

/// The places of an update, in rising order.
pub type Places = List<Place>;

impl TryCopy for Place {
    ghost Meaning = { PlaceMeant };

    ghost meaning = { place_of };

    fn copy(&self, alloc: Global) -> Result<Place, Memory>
        ensures same { IfOk result (λ copy. place_of copy ≡ place_of self.now) }
    {
        Ok(Place {
            cause: self.cause.copy(alloc)?,
            number: self.number,
        })
    }
}

/// The place of the cause: its first one that is not in `given`, or else one more than the greatest, which is added to the table.
/// If it is refused, memory or numbers do not suffice, and the table is unchanged.
pub fn give(places: &mut Places, given: &NumberList, cause: Cause) -> Result<u32, Memory>
    ensures number { IfOk result (λ n. n ≡
        (giving (places_of places.old) given.now.items (cause_of cause)).number) }
    ensures table { OnOk result (places_of places.new ≡
        (giving (places_of places.old) given.now.items (cause_of cause)).places) }
    ensures err { OnErr result (places_of places.new ≡ places_of places.old) }
{
    if let Some(place) = found(places, given, &cause) {
        return Ok(place.number);
    }
    let Some(number) = greatest(places.as_slice()).checked_add(1) else {
        return Err(Memory);
    };
    places.push(Place { cause, number })?;
    Ok(number)
}

// The first place of the cause that is not in `given`.
fn found<'a>(places: &'a Places, given: &NumberList, cause: &Cause) -> Option<&'a Place>
    ensures found { option_map place_of (option_copied result) ≡
        place_found (places_of places.now) given.now.items (cause_of cause.now) }
{
    places.as_slice().iter().find(|place| place.cause.is(cause) && !is_among(given, place.number))
}

fn is_among(given: &NumberList, number: u32) -> bool
    ensures among { result ≡ among given.now.items number }
{
    given.as_slice().iter().any(|other| *other == number)
}

// The greatest place; 0 if there is none.
fn greatest(places: &[Place]) -> u32
    ensures greatest { result ≡ greatest_of (map place_of places.now) }
{
    let mut most = 0;
    for place in places {
        most = greater(most, place.number);
    }
    most
}

fn greater(one: u32, other: u32) -> u32
    ensures greater { result ≡ greater_of one other }
{
    if one < other { other } else { one }
}

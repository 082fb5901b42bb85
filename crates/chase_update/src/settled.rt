//! A look that passes over settled mappings.
ghost use Rattle.std.specs.Prelude.{◌≡◌, ◌<◌, ◌≤◌, ◌+◌, ◌-◌, ◌++◌, ℕ, List, true, false, length, slice_index_or, map, IfOk, OnOk, OnErr};
ghost use Rattle.base_types.specs.Meanings.{rule_of};
ghost use Rattle.chase_query.specs.Meanings.{Read, passing, reads_in};
ghost use Rattle.chase_update.specs.Looks.{AsksNext, Passes, PassesLogged};
ghost use Rattle.chase_update.specs.Rows.{Violating, begun_in};
ghost use Rattle.chase_update.specs.PointMeanings.{reading_of};
ghost use Rattle.chase_update.specs.Transitions.{HasPassed, HasPassedLogged};

use crate::attempts::Attempt;
use crate::passing::{next_from_start, violation_asked};
use crate::points::Point;
use crate::readings::Reading;
use crate::rows::Row;
use base_limits::Mappings;
use base_types::{Mapping, Memory};
use chase_query::{Logged, Passage, ReadLog};

impl Attempt {
    /// Passes, in a look, over settled mappings: `settled[n]` says that mapping n has no violation that counts. The step then
    /// asks for the first violation of the next mapping that is not settled. If the look would end before that, or would have to
    /// ask whether a mapping is in force, it asks for the last settled one instead. The step has the same result as before, with
    /// no more queries.
    pub fn pass(&mut self, settled: &[bool], mappings: &Mappings<'_>)
        ensures passed { HasPassed mappings.now settled.now self.old self.new }
        ensures attempt { self.new.attempt ≡ self.old.attempt }
    {
        let parts = &mut *self.parts;
        if let Point::Reading(reading) = &mut parts.point {
            pass(reading, parts.number, settled, mappings);
        }
    }

    /// Passes as `pass` does, and adds the passages to the end of the log: for each passed mapping a read that it has no
    /// violation, by an attempt that had made `made` writes. If it is refused, the attempt is unchanged, but some of the reads
    /// may be in the log.
    pub fn pass_logged(
        &mut self,
        settled: &[bool],
        mappings: &Mappings<'_>,
        made: u64,
        log: &mut ReadLog,
    ) -> Result<(), Memory>
        ensures passed { OnOk result (HasPassedLogged mappings.now settled.now made self.old
            (reads_in log.old.items) self.new (reads_in log.new.items)) }
        ensures attempt { self.new.attempt ≡ self.old.attempt }
        ensures err { OnErr result (self.new ≡ self.old) }
    {
        let parts = &mut *self.parts;
        if let Point::Reading(reading) = &mut parts.point {
            pass_logged(reading, parts.number, settled, mappings, made, log)?;
        }
        Ok(())
    }
}

// If the step asks for the first violation of a mapping with a mark, passes on to the next mapping without a mark, or to the last
// one before a mapping that may be in force, but is not so from the start.
fn pass(reading: &mut Reading, number: u32, marks: &[bool], mappings: &Mappings<'_>)
    ensures passed { Passes mappings.now marks.now number (reading_of reading.old)
        (reading_of reading.new) }
    ensures phase { begun_in (reading_of reading.new) ≡ begun_in (reading_of reading.old) }
{
    if let Row::Violating(place) = &reading.row {
        let unmarked = first_unmarked(*place, number, marks, mappings);
        *reading = violation_asked(unmarked);
    }
}

// The first place from `from` on without a mark, if all mappings up to it that may be in force are so from the start; otherwise
// the last place before one that is not, or before the end.
fn first_unmarked(from: u16, number: u32, marks: &[bool], mappings: &Mappings<'_>) -> u16
    ensures passed { Passes mappings.now marks.now number (Violating from) (Violating result) }
{
    let mut place = end_of_passage(from, marks, mappings);
    'places: while is_marked(marks, place) {
        match next_from_start(number, place as usize + 1, mappings) {
            Some(next) => place = end_of_passage(next, marks, mappings),
            None => return place,
        }
    }
    place
}

// The last place of the passage from `from` on. Each place before the last has a mark, and the mapping after it is in force from
// the start. A look passes all but the last.
fn end_of_passage(from: u16, marks: &[bool], mappings: &Mappings<'_>) -> u16
    ensures passed { (number made : ℕ) (before : List Read) →
        PassesLogged mappings.now marks.now number made (Violating from) before
        (Violating result) (before ++ passing from (result - from) made) }
    ensures after { from ≤ result }
{
    let all = mappings.list().as_slice();
    let last = marks.len().min(mappings.len().saturating_sub(1));
    let mut place = from as usize;
    'passage: while leads_on(place, last, marks, all) {
        place += 1;
    }
    place as u16
}

// Whether the place comes before `last`, has a mark, and the mapping after it is in force from the start.
fn leads_on(place: usize, last: usize, marks: &[bool], all: &[Mapping]) -> bool
    requires marked { last ≤ length marks.now }
    requires followed { last ≤ length all.now - 1 }
    ensures mark { result ≡ true → slice_index_or marks.now place false ≡ true }
    ensures next { result ≡ true → (number : ℕ) →
        AsksNext (map rule_of all.now) number (place + 1) (place + 1) }
    ensures below { result ≡ true → place < last }
{
    if place < last && marks[place] {
        all[place + 1].since == 0
    } else {
        false
    }
}

// Passes as `pass` does, and logs a read of each mapping that it passes.
fn pass_logged(
    reading: &mut Reading,
    number: u32,
    marks: &[bool],
    mappings: &Mappings<'_>,
    made: u64,
    log: &mut ReadLog,
) -> Result<(), Memory>
    ensures passed { OnOk result (PassesLogged mappings.now marks.now number made
        (reading_of reading.old) (reads_in log.old.items)
        (reading_of reading.new) (reads_in log.new.items)) }
    ensures phase { begun_in (reading_of reading.new) ≡ begun_in (reading_of reading.old) }
    ensures err { OnErr result (reading.new ≡ reading.old) }
{
    if let Row::Violating(place) = &reading.row {
        let unmarked = log_marked(*place, number, marks, mappings, made, log)?;
        *reading = violation_asked(unmarked);
    }
    Ok(())
}

// The place that `first_unmarked` gives; the passages of the mappings before it are logged.
fn log_marked(
    from: u16,
    number: u32,
    marks: &[bool],
    mappings: &Mappings<'_>,
    made: u64,
    log: &mut ReadLog,
) -> Result<u16, Memory>
    ensures passed { IfOk result (λ place. PassesLogged mappings.now marks.now number made
        (Violating from) (reads_in log.old.items)
        (Violating place) (reads_in log.new.items)) }
{
    let mut place = from;
    'places: while is_marked(marks, place) {
        let end = end_of_passage(place, marks, mappings);
        if place < end {
            log_passage(log, place, end, made)?;
            place = end;
            continue;
        }
        match next_from_start(number, place as usize + 1, mappings) {
            Some(next) => {
                log_passage(log, place, place + 1, made)?;
                place = next;
            }
            None => return Ok(place),
        }
    }
    Ok(place)
}

// Adds the passage of the mappings from `start` up to, but without, `end` to the log, by an attempt that had made `made` writes.
fn log_passage(log: &mut ReadLog, start: u16, end: u16, made: u64) -> Result<(), Memory>
    ensures logged { OnOk result (reads_in log.new.items
        ≡ reads_in log.old.items ++ passing start (end - start) made) }
{
    log.push(Logged::Passed(Passage {
        start,
        end,
        own: made,
    }))?;
    Ok(())
}

// Whether there is a mark at the place.
fn is_marked(marks: &[bool], place: u16) -> bool
    ensures mark { result ≡ slice_index_or marks.now place false }
{
    marks.get(place as usize).copied().unwrap_or(false)
}

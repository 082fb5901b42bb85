//! Mappings that need not be searched again, since the last reads of an attempt still hold.
ghost use Rattle.std.specs.Prelude.{◌≡◌, ◌-◌, List, drop, map, IfOk};
ghost use Rattle.base_types.specs.Meanings.{change_of};
ghost use Rattle.def_chase.specs.Mappings.{Rule};
ghost use Rattle.def_chase.specs.Values.{Fact};
ghost use Rattle.chase_query.specs.Meanings.{passing, read_of, reads_in, reads_of};
ghost use Rattle.def_steps.specs.Attempts.{Attempt as AttemptMeant};
ghost use Rattle.chase_plan.specs.Planned.{HasSettled};
ghost use Rattle.chase_plan.specs.Settled.{AreValidOver, HasSettledBy, all_noted, noted};

use crate::touched::TouchedMappings;
use base_types::{Memory, Write};
use chase_eval::Settled;
use chase_query::{Logged, LoggedRead, Passage, Reply};
use chase_update::Attempt;
use std::alloc::Global;

/// The settled mappings of an attempt. If it is looking for violations, these are the mappings of which its last reads say that
/// its writes have caused no violation; before its first write, these are all mappings. Mappings to which a write since then may
/// have given a violation are not among them. If it is not looking, there are none. This holds over any tuples over which its
/// reads are valid, as they are over the repository below an update at any moment of a history.
pub fn settled_by(
    alloc: Global,
    mappings: &TouchedMappings<'_>,
    program: &Attempt,
    log: &[Logged],
) -> Result<Settled, Memory>
    ensures settled { IfOk result (λ settled. (D : List Fact) →
        AreValidOver mappings.now D program.now.attempt (reads_in log.now) →
        HasSettled mappings.now D program.now.attempt settled) }
{
    if !program.is_looking() {
        let none = Settled::none(alloc, 0)?;
        return Ok(none);
    }
    let settled = told_by(alloc, mappings, program, log)?;
    Ok(settled)
}

/// The settled mappings as in `settled_by`, whether or not the attempt is looking for violations.
pub fn told_by(
    alloc: Global,
    mappings: &TouchedMappings<'_>,
    program: &Attempt,
    log: &[Logged],
) -> Result<Settled, Memory>
    ensures settled { IfOk result (λ settled. (D : List Fact) →
        AreValidOver mappings.now D program.now.attempt (reads_in log.now) →
        HasSettled mappings.now D program.now.attempt settled) }
{
    let made = made_before(log);
    let mut settled = begun(alloc, mappings, made)?;
    learn_last(&mut settled, log, made);
    stir_since(&mut settled, mappings, program, made);
    Ok(settled)
}

/// Unsettles the mappings to which one of the attempt's writes after the first `made` may have given a violation.
pub fn stir_since(
    settled: &mut Settled,
    mappings: &TouchedMappings<'_>,
    program: &Attempt,
    made: u64,
)
    ensures settled { (D : List Fact) →
        HasSettledBy made mappings.now D program.now.attempt settled.old →
        HasSettled mappings.now D program.now.attempt settled.new }
{
    mappings.stir(settled, since(program.own().as_slice(), made));
}

// The number of writes made before the last reads; 0 if nothing was read.
fn made_before(log: &[Logged]) -> u64 {
    match log.last() {
        Some(last) => last.own(),
        None => 0,
    }
}

// The marks to begin with after `made` writes: if there are none, all mappings are settled, otherwise none is.
fn begun(alloc: Global, mappings: &TouchedMappings<'_>, made: u64) -> Result<Settled, Memory>
    ensures begun { IfOk result (λ settled. (D : List Fact) (P : AttemptMeant) →
        HasSettledBy made mappings.now D P settled) }
{
    if made == 0 {
        let settled = Settled::all(alloc, mappings.list().len())?;
        return Ok(settled);
    }
    let settled = Settled::none(alloc, mappings.list().len())?;
    Ok(settled)
}

// Learns from the last reads, by an attempt that had made `made` writes.
fn learn_last(settled: &mut Settled, log: &[Logged], made: u64)
    ensures learnt { (ms : List Rule) (D : List Fact) (P : AttemptMeant) →
        AreValidOver ms D P (reads_in log.now) →
        HasSettledBy made ms D P settled.old → HasSettledBy made ms D P settled.new }
{
    let mut rest = log;
    'entries: while let Some((entry, before)) = rest.split_last() {
        if entry.own() != made {
            return;
        }
        note(settled, entry);
        rest = before;
    }
}

// Settles the mappings that have no violation by the entry.
fn note(settled: &mut Settled, entry: &Logged)
    ensures noted { settled.new ≡ all_noted settled.old (reads_of entry.now) }
{
    match entry {
        Logged::Asked(read) => note_read(settled, read),
        Logged::Passed(passage) => note_passage(settled, passage),
    }
}

// Settles the mapping that has no violation by the read, if there is one.
fn note_read(settled: &mut Settled, read: &LoggedRead)
    ensures noted { settled.new ≡ noted settled.old (read_of read.now) }
{
    if matches!(&read.answer, Reply::Nothing) {
        settled.learn(&read.query);
    }
}

// Settles the mappings of the passage.
fn note_passage(settled: &mut Settled, passage: &Passage)
    ensures noted { settled.new
        ≡ all_noted settled.old
        (passing passage.now.start (passage.now.end - passage.now.start) passage.now.own) }
{
    for number in passage.start..passage.end {
        settled.settle(number);
    }
}

/// The writes after the first `made`.
pub fn since(own: &[Write], made: u64) -> &[Write]
    ensures since { map change_of result.now ≡ drop made (map change_of own.now) }
{
    let first = made as usize;
    if first <= own.len() {
        &own[first..]
    } else {
        &[]
    }
}

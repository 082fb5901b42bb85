//! The auditor.
ghost use Rattle.std.specs.Prelude.{◌≡◌, ◌↔◌, ◌^◌, ◌<◌, ◌++◌, ◌∷◌, [], IfOk, IsTrue, None, OnOk};
ghost use Rattle.core_entries.specs.Meanings.{entry_of};
ghost use Rattle.def_language.specs.Validity.{IsSession};
ghost use Rattle.lang_session.specs.Base.{base_violation};
ghost use Rattle.lang_session.specs.Meanings.{session_of};
ghost use Rattle.audit_trace.specs.Traces.{entry_line};
ghost use Rattle.audit_replay.specs.Replays.{IsReplay};
ghost use Rattle.audit_claims.specs.Claims.{claim_meant};
ghost use Rattle.audit_claims.specs.Told.{Admission};
ghost use Rattle.audit_verdict.specs.Judging.{HasEnded, HasEvent, HasEventWhole, HasJudged, HasVerdict};
ghost use Rattle.audit_verdict.specs.Verdicts.{verdict_of};
ghost use Rattle.audit_updates.specs.Settings.{settings_of};
ghost use Rattle.audit_claims.specs.Verdicts.{IsVerdict, trial_of};

use crate::terms::Terms;
use crate::verdicts::{Verdict, Why};
use audit_claims::{Claim, counted_lines, first_line, read_claim};
use audit_replay::{Event, Replay};
use audit_trace::entry_line;
use base_types::Memory;
use core_entries::Entry;
use def_history::laws::attempts_are_runs;
use lang_schema::Schema;
use lang_session::Session;
use std::alloc::Global;

/// Judges whether the bytes are the trace of a legal history of the session by these terms, which begins with the admissions of
/// all its updates. If not, the verdict has the first line at fault, and the first reason that applies.
pub fn audit(
    alloc: Global,
    session: &Session,
    terms: Terms,
    trace: &[u8],
) -> Result<Verdict, Memory>
    requires valid { IsSession (session_of session.now) }
    requires met { base_violation (session_of session.now) ≡ None }
    ensures verdict { IfOk result (λ verdict.
        IsVerdict (trial_of (session_of session.now) terms.budget (settings_of terms.settings))
        trace.now (verdict_of verdict)) }
{
    let Some(lines) = counted_lines(alloc, trace)? else {
        return Ok(Verdict::No {
            line: 1,
            why: Why::Form,
        });
    };
    let mut replay = Replay::begun(alloc, session, terms.settings, terms.budget)?;
    let verdict = judge(alloc, &mut replay, &session.schema, lines)?;
    Ok(verdict)
}

// The verdict on the lines of a trace, by a replay in which nothing has happened yet.
fn judge(
    alloc: Global,
    replay: &mut Replay<'_>,
    schema: &Schema,
    lines: &[u8],
) -> Result<Verdict, Memory>
    requires replay { IsReplay replay.old }
    ensures verdict { IfOk result (λ verdict.
        HasVerdict schema.now lines.now replay.old (verdict_of verdict)) }
{
    let mut entries = 0;
    let mut rest = lines;
    while let Some((line, after)) = first_line(rest) {
        if let Some(why) = fault_in(alloc, replay, schema, line)? {
            return Ok(Verdict::No {
                line: entries + 2,
                why,
            });
        }
        entries += 1;
        rest = after;
    }
    Ok(at_the_end(replay, entries))
}

// The verdict at the end of a trace without a line at fault.
fn at_the_end(replay: &Replay<'_>, entries: u64) -> Verdict
    requires replay { IsReplay replay.now }
    requires few { entries < 2 ^ 63 }
    ensures verdict { HasEnded entries replay.now (verdict_of result) }
{
    let whole = replay.is_whole();
    if whole {
        Verdict::Yes {
            entries,
            quiet: replay.is_quiet(),
        }
    } else {
        Verdict::No {
            line: entries + 2,
            why: Why::Event,
        }
    }
}

// What is wrong with the next line, if anything is; otherwise its event is made.
fn fault_in(
    alloc: Global,
    replay: &mut Replay<'_>,
    schema: &Schema,
    line: &[u8],
) -> Result<Option<Why>, Memory>
    requires replay { IsReplay replay.old }
    ensures judged { IfOk result (HasJudged schema.now line.now replay.old replay.new) }
    ensures replay { OnOk result (IsReplay replay.new) }
{
    attempts_are_runs();
    let Some(claim) = read_claim(alloc, schema, line)? else {
        return Ok(Some(Why::Form));
    };
    let Some(event) = event_of(replay, claim) else {
        return Ok(Some(Why::Event));
    };
    let Some(entry) = replay.make(alloc, event)? else {
        return Ok(Some(Why::Event));
    };
    if tells(alloc, schema, entry, line)? {
        return Ok(None);
    }
    Ok(Some(Why::Effect))
}

// The claimed event, if it is its turn: the updates of the session are admitted in order, before any other event.
fn event_of(replay: &Replay<'_>, claim: Claim) -> Option<Event>
    ensures event { HasEvent replay.now (claim_meant claim) result }
{
    match claim {
        Claim::Admitted(update) => admission_of(replay, update),
        Claim::Stepped(update) => when_whole(replay, Event::Steps(update)),
        Claim::Delivered(update) => when_whole(replay, Event::Delivers(update)),
        Claim::Answered(update, choice) => when_whole(replay, Event::Answers(update, choice)),
        Claim::Withdrawn(update) => when_whole(replay, Event::Withdraws(update)),
    }
}

// The event, if all updates are admitted.
fn when_whole(replay: &Replay<'_>, event: Event) -> Option<Event>
    ensures event { HasEventWhole replay.now event result }
{
    if replay.is_whole() { Some(event) } else { None }
}

// The next admission, if it admits this update.
fn admission_of(replay: &Replay<'_>, update: u32) -> Option<Event>
    ensures event { HasEvent replay.now (Admission update) result }
{
    if replay.is_whole() {
        return None;
    }
    if update == 0 {
        return None;
    }
    if update as usize - 1 != replay.count() {
        return None;
    }
    Some(Event::Admits)
}

// Whether the line is the text of the entry, which is dropped.
fn tells(alloc: Global, schema: &Schema, entry: Entry, line: &[u8]) -> Result<bool, Memory>
    ensures tells { IfOk result (λ same. IsTrue same ↔
        (line.now ++ 10 ∷ [] ≡ entry_line schema.now (entry_of entry))) }
{
    let text = text_of(alloc, schema, entry)?;
    match text.as_slice().strip_suffix(b"\n") {
        Some(told) => Ok(told == line),
        None => Ok(false),
    }
}

// The text of the entry, which is dropped.
fn text_of(alloc: Global, schema: &Schema, entry: Entry) -> Result<Vec<u8>, Memory>
    ensures line { IfOk result (λ text. text.items ≡ entry_line schema.now (entry_of entry)) }
{
    let text = entry_line(alloc, schema, &entry);
    drop(entry);
    text
}

//! The calls of a case, made on a core.
ghost use Rattle.std.specs.Prelude.{◌≤◌};
ghost use Rattle.def_language.specs.Validity.{IsSession};
ghost use Rattle.lang_session.specs.Meanings.{session_of};

use crate::answers::{
    with_counts, with_last, with_question, with_refusal, with_repository, with_result,
    with_standing,
};
use crate::calls::{Asked, Call, Event, read_call};
use crate::events::make;
use base_limits::Budget;
use core_engine::{Core, OpenRefusal};
use core_queue::Settings;
use lang_session::Session;
use std::alloc::Global;
use try_cases::{Case, CaseRefusal, with_entries, with_line};

/// What the calls of the case answer, in lines. An error if the case is not spelled as it should be.
pub fn told(alloc: Global, case: &Case) -> Result<Vec<u8>, CaseRefusal> {
    let (budget, settings) = case.settings()?;
    let session = case.session(alloc)?;
    told_over(alloc, &session, settings, budget, case.calls())
}

// What the calls on the core of the session answer.
fn told_over(
    alloc: Global,
    session: &Session,
    settings: Settings,
    budget: Budget,
    calls: &[String],
) -> Result<Vec<u8>, CaseRefusal>
    requires valid { IsSession (session_of session.now) }
    requires retries { settings.retries ≤ 4 }
{
    match Core::open(alloc, session, settings, budget) {
        Ok(mut core) => told_by(alloc, session, &mut core, calls),
        Err(OpenRefusal::Violates(_)) => Err(CaseRefusal::Base),
        Err(OpenRefusal::Memory) => Err(CaseRefusal::Memory),
    }
}

// What the calls on the core answer.
fn told_by(
    alloc: Global,
    session: &Session,
    core: &mut Core<'_>,
    calls: &[String],
) -> Result<Vec<u8>, CaseRefusal> {
    let mut text = Vec::new(alloc);
    for line in calls {
        text = with_told(alloc, text, session, core, line.as_str())?;
    }
    Ok(text)
}

// Makes the call of the line, and adds what it answers. A line that begins with `#` is no call, and is added as it is.
fn with_told(
    alloc: Global,
    text: Vec<u8>,
    session: &Session,
    core: &mut Core<'_>,
    line: &str,
) -> Result<Vec<u8>, CaseRefusal> {
    if line.starts_with('#') {
        return with_line(text, line);
    }
    let call = read_call(alloc, &session.schema, line)?;
    with_answer(alloc, text, session, core, call)
}

// Makes the call, and adds what it answers.
fn with_answer(
    alloc: Global,
    text: Vec<u8>,
    session: &Session,
    core: &mut Core<'_>,
    call: Call,
) -> Result<Vec<u8>, CaseRefusal> {
    match call {
        Call::Make(event) => with_event(alloc, text, session, core, event),
        Call::Drain => drained(alloc, text, session, core),
        Call::Ask(question) => told_of(alloc, text, session, core, question),
    }
}

// Makes the event, and adds its line, or why it is refused.
fn with_event(
    alloc: Global,
    text: Vec<u8>,
    session: &Session,
    core: &mut Core<'_>,
    event: Event,
) -> Result<Vec<u8>, CaseRefusal> {
    match make(alloc, core, event)? {
        Some(refusal) => with_refusal(alloc, text, refusal),
        None => with_last(alloc, text, &session.schema, core.history()),
    }
}

// Drains the core, and adds the lines of the events.
fn drained(
    alloc: Global,
    text: Vec<u8>,
    session: &Session,
    core: &mut Core<'_>,
) -> Result<Vec<u8>, CaseRefusal> {
    let before = core.history().len();
    core.drain(alloc)?;
    with_entries(alloc, text, &session.schema, core.history(), before)
}

// Adds the core's answer to the question.
fn told_of(
    alloc: Global,
    text: Vec<u8>,
    session: &Session,
    core: &Core<'_>,
    question: Asked,
) -> Result<Vec<u8>, CaseRefusal> {
    match question {
        Asked::Standing(update) => with_standing(alloc, text, core.standing(update)),
        Asked::Question(update) => with_question(alloc, text, session, core.question(update)),
        Asked::Counts => with_counts(alloc, text, core),
        Asked::Result => with_result(alloc, text, session, core),
        Asked::Repository => with_repository(alloc, text, &session.schema, core),
    }
}

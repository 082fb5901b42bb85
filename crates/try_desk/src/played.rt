//! A desk over the core of a session, played to its end.
ghost use Rattle.std.specs.Prelude.{◌≤◌};
ghost use Rattle.def_language.specs.Validity.{IsSession};
ghost use Rattle.lang_session.specs.Meanings.{session_of};

use crate::explored::{Extent, explored};
use crate::leads::Lead;
use crate::plays::play;
use crate::scripts::{Script, read_script};
use audit_trace::trace_text;
use base_limits::Budget;
use base_types::Memory;
use core_engine::{Core, OpenRefusal};
use core_queue::Settings;
use lang_report::result_text;
use lang_session::Session;
use std::alloc::Global;
use std::sync::Wait;
use try_cases::{Case, CaseRefusal};
use work_session::{Answers, Seated};

/// The output of the case, in lines. An error if the case is not spelled as it should be.
pub fn told<R: Wait>(rt: &R, alloc: Global, case: &Case) -> Result<Vec<u8>, CaseRefusal> {
    let (budget, settings) = case.settings()?;
    let session = case.session(alloc)?;
    told_over(rt, alloc, &session, settings, budget, case.calls())
}

// The output of the lines for a desk over the session.
fn told_over<R: Wait>(
    rt: &R,
    alloc: Global,
    session: &Session,
    settings: Settings,
    budget: Budget,
    lines: &[String],
) -> Result<Vec<u8>, CaseRefusal>
    requires valid { IsSession (session_of session.now) }
    requires retries { settings.retries ≤ 4 }
{
    match extent_in(lines)? {
        Some(extent) => explored(rt, alloc, session, settings, budget, extent),
        None => scripted(rt, alloc, session, settings, budget, lines),
    }
}

// The extent, if the only line is an `explore`.
fn extent_in(lines: &[String]) -> Result<Option<Extent>, CaseRefusal> {
    match lines {
        [line] => Extent::read(line.as_str()),
        _ => Ok(None),
    }
}

// What the desk answers to seats that come as the lines say.
fn scripted<R: Wait>(
    rt: &R,
    alloc: Global,
    session: &Session,
    settings: Settings,
    budget: Budget,
    lines: &[String],
) -> Result<Vec<u8>, CaseRefusal>
    requires valid { IsSession (session_of session.now) }
    requires retries { settings.retries ≤ 4 }
{
    let mut script = read_script(alloc, lines)?;
    let core = ended(rt, alloc, session, settings, budget, &mut script)?;
    script.told(alloc, &session.schema, core.history())
}

// The core of the session.
fn opened<'s>(
    alloc: Global,
    session: &'s Session,
    settings: Settings,
    budget: Budget,
) -> Result<Core<'s>, CaseRefusal>
    requires valid { IsSession (session_of session.now) }
    requires retries { settings.retries ≤ 4 }
{
    match Core::open(alloc, session, settings, budget) {
        Ok(core) => Ok(core),
        Err(OpenRefusal::Violates(_)) => Err(CaseRefusal::Base),
        Err(OpenRefusal::Memory) => Err(CaseRefusal::Memory),
    }
}

// The core of the session, as the desk over it gives it back after its seats came as the lead says.
fn ended<'s, R: Wait, L: Lead>(
    rt: &R,
    alloc: Global,
    session: &'s Session,
    settings: Settings,
    budget: Budget,
    lead: &mut L,
) -> Result<Core<'s>, CaseRefusal>
    requires valid { IsSession (session_of session.now) }
    requires retries { settings.retries ≤ 4 }
{
    let core = opened(alloc, session, settings, budget)?;
    core.is_legal();
    let seated = Seated::new(core, Answers::Last);
    let (seated, result) = play(rt, alloc, seated, lead);
    let core = seated.into_core();
    match result {
        Ok(()) => Ok(core),
        Err(refusal) => {
            drop(core);
            Err(refusal)
        }
    }
}

/// The result of the core of the session after its seats came as the lead says, and its trace.
pub fn end_of<R: Wait, L: Lead>(
    rt: &R,
    alloc: Global,
    session: &Session,
    settings: Settings,
    budget: Budget,
    lead: &mut L,
) -> Result<Vec<u8>, CaseRefusal>
    requires valid { IsSession (session_of session.now) }
    requires retries { settings.retries ≤ 4 }
{
    let core = ended(rt, alloc, session, settings, budget, lead)?;
    end_text(alloc, session, &core)
}

// The result of the core, and its trace.
fn end_text(alloc: Global, session: &Session, core: &Core<'_>) -> Result<Vec<u8>, CaseRefusal> {
    let mut text = result_of(alloc, session, core)?;
    let trace = trace_text(alloc, &session.schema, core.history())?;
    text.extend_from_slice(trace.as_slice())?;
    Ok(text)
}

// The result of the core.
fn result_of(alloc: Global, session: &Session, core: &Core<'_>) -> Result<Vec<u8>, Memory> {
    let told = core.result(alloc)?;
    result_text(alloc, session, &told)
}

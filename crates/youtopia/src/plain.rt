//! The commands that need no threads.
ghost use Rattle.std.specs.Prelude.{◌≤◌, IfNone, IfOk, IfSome, map, string_bytes};
ghost use Rattle.run_ask.specs.Bound.{written_of};
ghost use Rattle.cmd_frame.specs.Devices.{change};
ghost use Rattle.cmd_words.specs.Meaning.{HasRanges};
ghost use Rattle.youtopia.specs.Calls.{AsksFor, CallsPlainly, Does, DoesPlainly, LacksQuery, PerformsPlainly};

use crate::auditing::audit_trace;
use crate::explaining::explain_fact;
use crate::telling::Telling;
use base_devices::{Sink, Source};
use base_limits::Budget;
use base_types::Memory;
use cmd_frame::{Failure, Status, fail, perform, perform_alone};
use cmd_plain::{Ask, Check, Format, Journal, OnSession, Recover, Save, Serial, Upgrade};
use cmd_words::{CommandName, HELP, Options, Request, VERSION_LINE, WordsRefusal, read_words};
use run_ask::{RawAsk, parse_ask};
use std::alloc::Global;

// The query that the option spells, if it spells one.
fn query_of(alloc: Global, options: &Options<'_>) -> Result<Option<RawAsk>, Memory>
    ensures some { IfOk result
        (λ found. IfSome found (λ raw. AsksFor options.now (written_of raw))) }
    ensures none { IfOk result (λ found. IfNone found (LacksQuery options.now)) }
{
    match options.query {
        Some(text) => parse_ask(alloc, text.as_bytes()),
        None => Ok(None),
    }
}

// Performs `ask` between the devices, with the query of the words.
fn ask_query<S: Source, O: Sink, E: Sink>(
    alloc: Global,
    options: &Options<'_>,
    source: &mut S,
    out: &mut O,
    err: &mut E,
) -> Status
    requires some { 1 ≤ options.now.steps }
    requires most { options.now.steps ≤ 300 }
    ensures asks { Does CommandName.Ask options.now result
        (change S.left S.fault_count source.old source.new)
        (change O.taken O.fault_count out.old out.new)
        (change E.taken E.fault_count err.old err.new) }
{
    match query_of(alloc, options) {
        Ok(Some(query)) => {
            let command = Ask {
                budget: Budget::new(options.steps),
                query: &query,
            };
            perform(alloc, &OnSession(command), source, out, err)
        }
        Ok(None) => fail(Failure::Usage, err),
        Err(_) => fail(Failure::OutOfMemory, err),
    }
}

// Performs the command between the devices, if it needs no threads.
fn command<S: Source, O: Sink, E: Sink>(
    alloc: Global,
    options: &Options<'_>,
    source: &mut S,
    out: &mut O,
    err: &mut E,
) -> Status
    requires some { 1 ≤ options.now.steps }
    requires most { options.now.steps ≤ 300 }
    requires few { options.now.retries ≤ 4 }
    ensures does { DoesPlainly options.now.command options.now result
        (change S.left S.fault_count source.old source.new)
        (change O.taken O.fault_count out.old out.new)
        (change E.taken E.fault_count err.old err.new) }
{
    let budget = Budget::new(options.steps);
    match options.command {
        CommandName::Run => fail(Failure::Usage, err),
        CommandName::Drill => fail(Failure::Usage, err),
        CommandName::Serial => perform(alloc, &OnSession(Serial { budget }), source, out, err),
        CommandName::Format => perform(alloc, &OnSession(Format), source, out, err),
        CommandName::Check => perform(alloc, &OnSession(Check), source, out, err),
        CommandName::Save => perform(alloc, &OnSession(Save { budget }), source, out, err),
        CommandName::Upgrade => perform(alloc, &OnSession(Upgrade), source, out, err),
        CommandName::Ask => ask_query(alloc, options, source, out, err),
        CommandName::Explain => explain_fact(alloc, options, source, out, err),
        CommandName::Audit => audit_trace(alloc, options, source, out, err),
        CommandName::Journal => perform(alloc, &OnSession(Journal { budget }), source, out, err),
        CommandName::Recover => perform(alloc, &Recover, source, out, err),
    }
}

// Does what the words ask for, if it needs no threads.
fn attend<S: Source, O: Sink, E: Sink>(
    alloc: Global,
    request: Request<'_>,
    source: &mut S,
    out: &mut O,
    err: &mut E,
) -> Status
    requires ranges { HasRanges request }
    ensures done { PerformsPlainly request.entry result
        (change S.left S.fault_count source.old source.new)
        (change O.taken O.fault_count out.old out.new)
        (change E.taken E.fault_count err.old err.new) }
{
    match request {
        Request::Command(options) => command(alloc, &options, source, out, err),
        Request::Help => perform_alone(alloc, &Telling { text: HELP }, out, err),
        Request::Version => perform_alone(alloc, &Telling { text: VERSION_LINE }, out, err),
    }
}

/// Does what the words after the program's name ask for, if it needs no threads: any command but `run` and `drill`, which are
/// refused like wrong words. The row of each status says what was read, and what `out` and `err` took.
pub fn plain<S: Source, O: Sink, E: Sink>(
    alloc: Global,
    words: &[String],
    source: &mut S,
    out: &mut O,
    err: &mut E,
) -> Status
    ensures calls { CallsPlainly (map string_bytes words.now) result
        (change S.left S.fault_count source.old source.new)
        (change O.taken O.fault_count out.old out.new)
        (change E.taken E.fault_count err.old err.new) }
{
    match read_words(alloc, words) {
        Ok(request) => attend(alloc, request, source, out, err),
        Err(WordsRefusal::Usage) => fail(Failure::Usage, err),
        Err(WordsRefusal::Memory) => fail(Failure::OutOfMemory, err),
    }
}

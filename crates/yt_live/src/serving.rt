//! A stream of lines, served.
ghost use Rattle.std.specs.Prelude.{◌≡◌, ◌+◌, ◌≤◌, ◌++◌, ◌∷◌, [], None, codes, length, IfErr, IfOk, OnOk};
ghost use Rattle.std.specs.Fmt.{decimal};
ghost use Rattle.cmd_frame.specs.Devices.{Takes, change};
ghost use Rattle.def_language.specs.Lines.{read};
ghost use Rattle.core_queue.specs.Settings.{settings_of};
ghost use Rattle.live_replies.specs.Meanings.{live_of};
ghost use Rattle.lang_session.specs.Base.{base_violation};
ghost use Rattle.lang_session.specs.Meanings.{session_of};
ghost use Rattle.def_language.specs.Validity.{IsSession};
ghost use Rattle.live_replies.specs.Turns.{begun as begun_of, line_turn};
ghost use Rattle.yt_live.specs.Ends.{Ends, EndsAlone, FailsReply, HasReplied, LeavesSerial, Serves, end_of, of_lines, of_stream};
ghost use Rattle.yt_live.specs.Streams.{attended, opened_with, ready_line, served};

use crate::ends::LiveEnd;
use crate::openings::{read_opening, session_in};
use base_devices::{Lines, NextLine, Sink, Source, write_all};
use base_limits::{Budget, MOST_BYTES};
use base_types::Memory;
use core_engine::OpenRefusal;
use core_queue::Settings;
use def_language::spelled_sessions_are_valid;
use lang_session::Session;
use live_replies::Conversation;
use std::alloc::Global;

/// The most bytes that an input may have.
pub const INPUT_LIMIT: usize = MOST_BYTES;

// Writes a reply.
fn write<O: Sink>(sink: &mut O, text: &[u8]) -> Result<(), LiveEnd>
    ensures ok { OnOk result (Takes (change O.taken O.fault_count sink.old sink.new) text.now) }
    ensures err { IfErr result (FailsReply text.now (change O.taken O.fault_count sink.old
        sink.new)) }
    ensures later { O.fault_count sink.old ≤ O.fault_count sink.new }
{
    match write_all(sink, text) {
        Ok(()) => Ok(()),
        Err(_) => Err(LiveEnd::WriteFault),
    }
}

// Does what the line says, and writes the reply. The result is whether further lines are read.
fn turn<O: Sink>(
    alloc: Global,
    conversation: &mut Conversation<'_>,
    line: &[u8],
    sink: &mut O,
) -> Result<bool, LiveEnd>
    ensures replied { IfOk result (HasReplied (line_turn (live_of conversation.old) line.now)
        (change O.taken O.fault_count sink.old sink.new) (live_of conversation.new)) }
    ensures refused { IfErr result (FailsReply (line_turn (live_of conversation.old) line.now).reply
        (change O.taken O.fault_count sink.old sink.new)) }
    ensures later { O.fault_count sink.old ≤ O.fault_count sink.new }
{
    let told = conversation.turn(alloc, line)?;
    write(sink, &told.text)?;
    Ok(!told.last)
}

// Serves the lines of commands, one by one.
fn converse<S: Source, O: Sink>(
    alloc: Global,
    conversation: &mut Conversation<'_>,
    lines: &mut Lines,
    source: &mut S,
    sink: &mut O,
) -> Result<(), LiveEnd>
    ensures converses { Ends (of_lines (served (live_of conversation.old)) lines.old.bytes)
        lines.old.room (end_of result) (change S.left S.fault_count source.old source.new)
        (change O.taken O.fault_count sink.old sink.new) }
{
    'each: loop {
        match lines.next(alloc, source)? {
            NextLine::Whole(line) => {
                if !turn(alloc, conversation, &line, sink)? {
                    return Ok(());
                }
            }
            NextLine::Last(line) => {
                turn(alloc, conversation, &line, sink)?;
                return Ok(());
            }
        }
    }
}

// The line that says that the session was read, with the number of its updates.
fn ready(alloc: Global, count: u32) -> Result<Vec<u8>, Memory>
    ensures { IfOk result (λ text. text.items ≡ codes "ready " ++ (decimal count ++ 10 ∷ [])) }
{
    let text = format!(in alloc; "ready {count}\n")?;
    Ok(text.into_bytes())
}

// Writes that the session is ready.
fn greet<O: Sink>(
    alloc: Global,
    conversation: &Conversation<'_>,
    sink: &mut O,
) -> Result<(), LiveEnd>
    ensures ok { OnOk result (Takes (change O.taken O.fault_count sink.old sink.new)
        (ready_line (live_of conversation.now))) }
    ensures err { IfErr result (FailsReply (ready_line (live_of conversation.now))
        (change O.taken O.fault_count sink.old sink.new)) }
    ensures later { O.fault_count sink.old ≤ O.fault_count sink.new }
{
    let first = ready(alloc, conversation.count())?;
    write(sink, &first)
}

// Writes that the session is ready, and then serves the lines of commands.
fn attend<S: Source, O: Sink>(
    alloc: Global,
    conversation: &mut Conversation<'_>,
    lines: &mut Lines,
    source: &mut S,
    sink: &mut O,
) -> Result<(), LiveEnd>
    ensures attends { Ends (of_lines (attended (live_of conversation.old)) lines.old.bytes)
        lines.old.room (end_of result) (change S.left S.fault_count source.old source.new)
        (change O.taken O.fault_count sink.old sink.new) }
{
    greet(alloc, conversation, sink)?;
    converse(alloc, conversation, lines, source, sink)
}

// The session before the first line; its base is known to violate no mapping.
fn begin<'s>(
    alloc: Global,
    session: &'s Session,
    settings: Settings,
    budget: Budget,
) -> Result<Conversation<'s>, Memory>
    requires valid { IsSession (session_of session.now) }
    requires met { base_violation (session_of session.now) ≡ None }
    requires retries { settings.retries ≤ 4 }
    ensures begun { IfOk result (λ c. live_of c ≡ begun_of budget (settings_of settings)
        (session_of session.now)) }
{
    match Conversation::open(alloc, session, settings, budget) {
        Ok(conversation) => Ok(conversation),
        Err(OpenRefusal::Violates(_)) => unreachable!(),
        Err(OpenRefusal::Memory) => Err(Memory),
    }
}

// Serves the session of the text, and then the lines of commands.
fn serve_text<S: Source, O: Sink>(
    alloc: Global,
    text: &[u8],
    lines: &mut Lines,
    source: &mut S,
    sink: &mut O,
    settings: Settings,
    budget: Budget,
) -> Result<(), LiveEnd>
    requires retries { settings.retries ≤ 4 }
    requires short { length text.now ≤ INPUT_LIMIT + 1 }
    ensures serves { Ends (of_lines (opened_with budget (settings_of settings) (read text.now))
        lines.old.bytes) lines.old.room (end_of result)
        (change S.left S.fault_count source.old source.new)
        (change O.taken O.fault_count sink.old sink.new) }
{
    let session = session_in(alloc, text)?;
    let mut conversation = begin(alloc, &session, settings, budget)?;
    attend(alloc, &mut conversation, lines, source, sink)
}

// Serves the session of the text, at the end of the input.
fn serve_alone<O: Sink>(
    alloc: Global,
    text: &[u8],
    sink: &mut O,
    settings: Settings,
    budget: Budget,
) -> Result<(), LiveEnd>
    requires retries { settings.retries ≤ 4 }
    requires short { length text.now ≤ INPUT_LIMIT + 1 }
    ensures ends { EndsAlone (opened_with budget (settings_of settings) (read text.now) [])
        (end_of result) (change O.taken O.fault_count sink.old sink.new) }
{
    let session = session_in(alloc, text)?;
    let conversation = begin(alloc, &session, settings, budget)?;
    greet(alloc, &conversation, sink)
}

// Serves the session of the stream, and then the lines of commands.
fn serve_all<S: Source, O: Sink>(
    alloc: Global,
    source: &mut S,
    sink: &mut O,
    settings: Settings,
    budget: Budget,
) -> Result<(), LiveEnd>
    requires retries { settings.retries ≤ 4 }
    ensures serves { Serves budget (settings_of settings) (end_of result)
        (change S.left S.fault_count source.old source.new)
        (change O.taken O.fault_count sink.old sink.new) }
{
    let mut lines = Lines::new(alloc, INPUT_LIMIT);
    let begun = read_opening(alloc, &mut lines, source)?;
    if begun.more {
        return serve_text(
            alloc,
            &begun.text,
            &mut lines,
            source,
            sink,
            settings,
            budget,
        );
    }
    serve_alone(alloc, &begun.text, sink, settings, budget)
}

/// Serves a stream: a session, and then commands of curators, each with its reply before the next line is read.
///
/// With `Ended` the sink has taken exactly the replies to what was read, and with any other end a prefix of the replies, however
/// the source cuts the bytes. Whatever the bytes are, their events form one legal history. What it commits is what the serial
/// machine makes of the committed updates alone, taken whole, in number order, with their answers.
pub fn serve<S: Source, O: Sink>(
    alloc: Global,
    source: &mut S,
    sink: &mut O,
    settings: Settings,
    budget: Budget,
) -> LiveEnd
    requires retries { settings.retries ≤ 4 }
    ensures serves { Serves budget (settings_of settings) result
        (change S.left S.fault_count source.old source.new)
        (change O.taken O.fault_count sink.old sink.new) }
    ensures serial { LeavesSerial (of_stream budget (settings_of settings))
        (change S.left S.fault_count source.old source.new) }
{
    budget.is_within();
    spelled_sessions_are_valid();
    match serve_all(alloc, source, sink, settings, budget) {
        Ok(()) => LiveEnd::Ended,
        Err(end) => end,
    }
}

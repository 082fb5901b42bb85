//! Accepting a change: its record is appended before its reply is given.
ghost use Rattle.std.specs.Prelude.{IfOk};
ghost use Rattle.ws_session.specs.Written.{HasAppended, IsRecorded};

use crate::sessions::Session;
use def_memory::Memory;
use std::alloc::Global;
use ws_fault::Refusal;
use ws_log::{Fault, OpenLog};
use ws_print::{Text, add_line, add_record};
use ws_reply::{Outcome, Reply};
use ws_space::Space;
use ws_written::{Line, NumberedUpdate, Record, SaidLine, Stamp};

/// What a change says: its lines, and the numbers of the updates whose lines follow.
#[derive(Drop)]
pub(crate) struct Content {
    lines: Vec<Line>,
    updates: Vec<u32>,
}

// The updates whose lines follow the others of a record, and the comment of their first line.
#[derive(Clone, Copy)]
struct Further<'a> {
    updates: &'a [u32],
    comment: &'a str,
}

/// What a change says, and its reply.
pub(crate) fn parts_of(outcome: Outcome) -> (Content, Reply) {
    let Outcome {
        reply,
        lines,
        updates,
    } = outcome;
    (Content { lines, updates }, reply)
}

/// The stamp of what is said: who says it, and when.
pub(crate) fn stamp_of(alloc: Global, time: &str, curator: &str) -> Result<Stamp, Memory> {
    Ok(Stamp {
        time: String::from_str(alloc, time)?,
        curator: String::from_str(alloc, curator)?,
    })
}

// The lines as they are said; the first one has the comment.
fn said_lines(alloc: Global, lines: Vec<Line>, comment: &str) -> Result<Vec<SaidLine>, Memory> {
    let mut said = Vec::new(alloc);
    let _ = said.reserve_exact(lines.len());
    let mut are_all = true;
    for (place, line) in lines.into_iter().enumerate() {
        let comment = if place == 0 { comment } else { "" };
        are_all = add_said(alloc, &mut said, line, comment).is_ok() && are_all;
    }
    if are_all {
        return Ok(said);
    }
    Err(Memory)
}

fn add_said(
    alloc: Global,
    said: &mut Vec<SaidLine>,
    line: Line,
    comment: &str,
) -> Result<(), Memory> {
    match String::from_str(alloc, comment) {
        Ok(comment) => Ok(said.push(SaidLine { line, comment })?),
        Err(_) => {
            drop(line);
            Err(Memory)
        }
    }
}

// The text of a record with further lines, over the relations of the workspace after it.
fn text_of(
    alloc: Global,
    space: &Space,
    record: &Record,
    further: Further<'_>,
) -> Result<Vec<u8>, Memory> {
    let mut text = Text::new(alloc);
    add_record(&mut text, space.relations.as_slice(), record);
    add_further(alloc, &mut text, space, further)?;
    let text = text.done()?;
    Ok(text.into_bytes())
}

fn add_further(
    alloc: Global,
    text: &mut Text,
    space: &Space,
    further: Further<'_>,
) -> Result<(), Memory> {
    for (place, number) in further.updates.iter().enumerate() {
        let comment = if place == 0 { further.comment } else { "" };
        add_update(alloc, text, space, *number, comment)?;
    }
    Ok(())
}

// Adds the line of an update, with the comment unless it is empty.
fn add_update(
    alloc: Global,
    text: &mut Text,
    space: &Space,
    number: u32,
    comment: &str,
) -> Result<(), Memory> {
    let line = line_of(alloc, space, number)?;
    text.push('\n');
    add_line(text, space.relations.as_slice(), &line);
    if !comment.is_empty() {
        text.push_str("  # ");
        text.push_str(comment);
    }
    Ok(())
}

// The line of an update that the workspace has, as it was said. If there is none, the record cannot be made.
fn line_of(alloc: Global, space: &Space, number: u32) -> Result<Line, Memory> {
    let Some(held) = space.state.update(number) else {
        return Err(Memory);
    };
    let update = space.said(alloc, held)?;
    Ok(Line::Update(NumberedUpdate {
        number,
        steps: held.steps,
        update,
    }))
}

// The further lines as they are said.
fn add_said_further(
    alloc: Global,
    said: &mut Vec<SaidLine>,
    space: &Space,
    further: Further<'_>,
) -> Result<(), Memory> {
    for (place, number) in further.updates.iter().enumerate() {
        let comment = if place == 0 { further.comment } else { "" };
        let line = line_of(alloc, space, *number)?;
        add_said(alloc, said, line, comment)?;
    }
    Ok(())
}

// Keeps the record of lines that the workspace has taken, and its text. Without `keeps_lines` the lines are not kept: no command
// follows that could ask for them.
fn keep(
    alloc: Global,
    space: &mut Space,
    texts: &mut Vec<Vec<u8>>,
    record: Record,
    further: Further<'_>,
    keeps_lines: bool,
) -> Result<(), Memory> {
    match text_of(alloc, space, &record, further) {
        Ok(text) => {
            if texts.push(text).is_err() {
                drop(record);
                return Err(Memory);
            }
            let record = kept(alloc, space, record, further, keeps_lines)?;
            space.recorded(alloc, record)
        }
        Err(memory) => {
            drop(record);
            Err(memory)
        }
    }
}

// The record with all of its lines if they are kept, else without lines.
fn kept(
    alloc: Global,
    space: &Space,
    record: Record,
    further: Further<'_>,
    keeps_lines: bool,
) -> Result<Record, Memory> {
    let Record { stamp, lines } = record;
    match kept_lines(alloc, space, lines, further, keeps_lines) {
        Ok(lines) => Ok(Record { stamp, lines }),
        Err(memory) => {
            drop(stamp);
            Err(memory)
        }
    }
}

fn kept_lines(
    alloc: Global,
    space: &Space,
    lines: Vec<SaidLine>,
    further: Further<'_>,
    keeps_lines: bool,
) -> Result<Vec<SaidLine>, Memory> {
    if !keeps_lines {
        drop(lines);
        return Ok(Vec::new(alloc));
    }
    let mut lines = lines;
    match add_said_further(alloc, &mut lines, space, further) {
        Ok(()) => Ok(lines),
        Err(memory) => {
            drop(lines);
            Err(memory)
        }
    }
}

impl Session {
    /// Records the lines of a change, and returns its reply. At `Ok` the record is acknowledged.
    pub(crate) fn accept(
        &mut self,
        alloc: Global,
        log: OpenLog,
        outcome: Outcome,
        time: &str,
        comment: &str,
    ) -> Result<(OpenLog, Reply), Refusal>
        ensures { IfOk result (λ told. IsRecorded log told.0) }
    {
        let (content, reply) = parts_of(outcome);
        // All that may fail for want of memory comes before the append; after the append, nothing may fail.
        match self.record(alloc, content, time, comment) {
            Ok(()) => self.append(alloc, log, reply),
            Err(memory) => {
                drop((log, reply));
                Err(Refusal::from(memory))
            }
        }
    }

    /// Keeps the record of what is said and its text; the comment belongs to the first line. If memory runs out, what was read is
    /// of no use any more.
    pub(crate) fn record(
        &mut self,
        alloc: Global,
        content: Content,
        time: &str,
        comment: &str,
    ) -> Result<(), Memory> {
        let Content { lines, updates } = content;
        let further = Further {
            updates: updates.as_slice(),
            comment: if lines.is_empty() { comment } else { "" },
        };
        let record = self.record_of(alloc, lines, time, comment)?;
        self.keep(alloc, record, further)
    }

    // The record of these lines, in the name of the session's curator.
    fn record_of(
        &self,
        alloc: Global,
        lines: Vec<Line>,
        time: &str,
        comment: &str,
    ) -> Result<Record, Memory> {
        let lines = said_lines(alloc, lines, comment)?;
        match stamp_of(alloc, time, self.speaker.settings.curator.as_str()) {
            Ok(stamp) => Ok(Record { stamp, lines }),
            Err(memory) => {
                drop(lines);
                Err(memory)
            }
        }
    }

    fn keep(&mut self, alloc: Global, record: Record, further: Further<'_>) -> Result<(), Memory> {
        let keeps_lines = self.speaker.settings.stays;
        match &mut self.space {
            Some(space) => {
                let texts = &mut self.file.texts;
                keep(alloc, space, texts, record, further, keeps_lines)
            }
            None => {
                drop(record);
                Err(Memory)
            }
        }
    }

    // Appends the last text that is kept, and returns the reply.
    fn append(&self, alloc: Global, log: OpenLog, reply: Reply) -> Result<(OpenLog, Reply), Refusal>
        ensures { IfOk result (λ told. IsRecorded log told.0) }
    {
        match last_appended(alloc, log, self.file.texts.as_slice(), reply) {
            Ok(told) => Ok(told),
            Err(fault) => Err(self.speaker.log_fault(alloc, fault)),
        }
    }
}

// Appends the last of the texts, and returns the reply.
fn last_appended(
    alloc: Global,
    log: OpenLog,
    texts: &[Vec<u8>],
    reply: Reply,
) -> Result<(OpenLog, Reply), Fault>
    ensures { IfOk result (λ told. IsRecorded log told.0) }
{
    let Some(text) = texts.last() else {
        drop((log, reply));
        return Err(Fault::Memory);
    };
    let answer = told(alloc, log, text.as_slice(), reply)?;
    Ok(answer)
}

// Appends the text, and returns the reply: so no reply is given before the text is acknowledged.
fn told(alloc: Global, log: OpenLog, text: &[u8], reply: Reply) -> Result<(OpenLog, Reply), Fault>
    ensures { IfOk result (λ told. HasAppended text.now log told.0) }
{
    let log = log.append(alloc, text)?;
    Ok((log, reply))
}

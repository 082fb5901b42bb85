//! The lines on `err` that say how a stream ended.
ghost use Rattle.std.specs.Prelude.{◌≡◌, IfOk};
ghost use Rattle.cmd_frame.specs.Devices.{Tells, change};
ghost use Rattle.lang_reader.specs.Answers.{wrong_of};
ghost use Rattle.yt_live.specs.Curates.{IsTold, base_line, fault_line, line_of, usage_line};
ghost use Rattle.cmd_frame.specs.declared.statuses.Status.TheVariants.{OutOfMemory, Usage};
ghost use Rattle.yt_live.specs.declared.ends.LiveEnd.TheVariants.{Memory as WantOfMemory};

use crate::ends::LiveEnd;
use base_devices::{Sink, write_all};
use base_types::{Memory, Name, TupleList};
use cmd_frame::Status;
use lang_print::with_separated;
use lang_reader::{SessionFault, fault_text};
use lang_schema::{Page, Schema};
use lang_session::Session;
use std::alloc::Global;

// The line of a session's first fault.
fn fault_line(alloc: Global, fault: &SessionFault) -> Result<Vec<u8>, Memory>
    ensures { IfOk result (λ line. line.items ≡ fault_line (wrong_of fault.now)) }
{
    let mut line = Vec::from_slice(alloc, b"yt_live: ")?;
    line.extend_from_slice(&fault_text(alloc, fault)?)?;
    line.push(b'\n')?;
    Ok(line)
}

// The line of a violation of the base.
fn base_line(
    alloc: Global,
    schema: &Schema,
    mapping: &Name,
    image: &TupleList,
) -> Result<Vec<u8>, Memory>
    ensures { IfOk result (λ line. line.items ≡ base_line schema.now mapping.now.items
        image.now.items) }
{
    let head = Page::new(alloc)
        .name(b"yt_live")?
        .colon()?
        .name(b"base")?
        .name(b"violates")?
        .name(mapping.as_slice())?
        .colon()?;
    let page = with_separated(head, schema, image.as_slice())?;
    Ok(page.end_line()?.into_text())
}

// The line that says how the stream ended; empty for `Ended`.
fn line(alloc: Global, end: &LiveEnd) -> Result<Vec<u8>, Memory>
    ensures { IfOk result (λ line. line.items ≡ line_of end.now) }
{
    match end {
        LiveEnd::Ended => Ok(Vec::new(alloc)),
        LiveEnd::ReadFault => Ok(Vec::from_slice(alloc, b"yt_live: read fault\n")?),
        LiveEnd::WriteFault => Ok(Vec::from_slice(alloc, b"yt_live: write fault\n")?),
        LiveEnd::TooLong => Ok(Vec::from_slice(
            alloc,
            b"yt_live: input longer than 16777216 bytes\n",
        )?),
        LiveEnd::SessionRefused(fault) => fault_line(alloc, fault),
        LiveEnd::BaseViolates {
            mapping,
            image,
            session,
        } => base_line(alloc, &session.schema, mapping, image),
        LiveEnd::Memory => Ok(Vec::from_slice(alloc, b"yt_live: out of memory\n")?),
    }
}

/// Says on `err` how the stream ended, and gives its status; want of memory may come in place of both.
pub(crate) fn tell<E: Sink>(alloc: Global, end: &LiveEnd, err: &mut E) -> Status
    ensures told { IsTold end.now result (change E.taken E.fault_count err.old err.new) }
{
    match line(alloc, end) {
        Ok(text) => {
            let _ = write_all(err, &text);
            end.status()
        }
        Err(_) => tell_memory(err),
    }
}

// Says on `err` that memory ran out.
fn tell_memory<E: Sink>(err: &mut E) -> Status
    ensures status { result ≡ OutOfMemory }
    ensures told { Tells (change E.taken E.fault_count err.old err.new) (line_of WantOfMemory) }
{
    let _ = write_all(err, b"yt_live: out of memory\n");
    Status::OutOfMemory
}

/// Says on `err` that the program takes no words.
pub(crate) fn refuse_words<E: Sink>(err: &mut E) -> Status
    ensures status { result ≡ Usage }
    ensures told { Tells (change E.taken E.fault_count err.old err.new) usage_line }
{
    let _ = write_all(err, b"yt_live: usage: yt_live\n");
    Status::Usage
}

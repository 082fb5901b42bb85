//! The call that reads a session.

ghost use Rattle.std.specs.Prelude.{◌<◌, IfErr, IfOk, IsUtf8};
ghost use Rattle.std.specs.List.{count_by};
ghost use Rattle.std.specs.Str.{IsValidUpTo};
ghost use Rattle.def_language.specs.Lines.{Spells, read};
ghost use Rattle.def_language.specs.Validity.{IsSession};
ghost use Rattle.def_language.specs.Bytes.{is_line_feed};
ghost use Rattle.lang_reader.specs.Answers.{GivesWhole, IsTold};
ghost use Rattle.lang_session.specs.Meanings.{session_of};

use crate::faults::{FaultKind, ReadFailure, SessionFault};
use crate::lines::read_lines;
use crate::split::line_number;
use def_language::{bytes_are_text_first, spelled_sessions_are_valid};
use lang_lex::utf8_end;
use lang_session::Session;
use std::alloc::Global;

// The failure for bytes that stop being UTF-8 at the place.
fn not_text(bytes: &[u8], place: usize) -> ReadFailure
    requires place { IsValidUpTo bytes.now place }
    requires few_lines { count_by is_line_feed bytes.now < 4294967295 }
    ensures { IsTold bytes.now result }
{
    bytes_are_text_first();
    ReadFailure::Fault(SessionFault {
        line: line_number(bytes, place),
        kind: FaultKind::BadByte(place),
    })
}

// The session of bytes that are UTF-8.
#[tactic(auto, using(crate::proofs::Encoded::text_read))]
fn read_text(alloc: Global, bytes: &[u8]) -> Result<Session, ReadFailure>
    requires text { IsUtf8 bytes.now }
    requires few_lines { count_by is_line_feed bytes.now < 4294967295 }
    ensures { GivesWhole session_of result (read bytes.now) }
{
    let draft = read_lines(alloc, bytes)?;
    Ok(draft.into_session(alloc)?)
}

/// Reads a session.
///
/// The input must be UTF-8 as a whole; then its lines are read from the first on. In a line the leftmost lexical fault comes
/// first, then the faults of its form from the left, then those of its statement in the order of the checks. A failure is the
/// first fault of the input, with its line, or want of memory.
pub fn read_session(alloc: Global, bytes: &[u8]) -> Result<Session, ReadFailure>
    requires few_lines { count_by is_line_feed bytes.now < 4294967295 }
    ensures ok { IfOk result (λ session. Spells bytes.now (session_of session)) }
    ensures valid { IfOk result (λ session. IsSession (session_of session)) }
    ensures err { IfErr result (IsTold bytes.now) }
{
    spelled_sessions_are_valid();
    match utf8_end(bytes) {
        Some(place) => Err(not_text(bytes, place)),
        None => read_text(alloc, bytes),
    }
}

//! The session at the front of a stream.
ghost use Rattle.std.specs.Prelude.{◌≡◌, ◌+◌, ◌≤◌, [], ◌∷◌, ◌++◌, None, codes, length, IfErr, IfOk, IsErrOf, OnOk};
ghost use Rattle.lang_forms.specs.Views.{words_of};
ghost use Rattle.def_language.specs.Lines.{Spells};
ghost use Rattle.def_language.specs.Names.{same_name};
ghost use Rattle.def_language.specs.Validity.{IsSession};
ghost use Rattle.lang_session.specs.Base.{base_violation};
ghost use Rattle.lang_session.specs.Meanings.{session_of};
ghost use Rattle.base_devices.specs.Faults.{Rose};
ghost use Rattle.yt_live.specs.Ends.{Opens, OpensNothing, RefusesBase, RefusesText};
ghost use Rattle.yt_live.specs.Streams.{is_end, is_end_alone, last_line};
ghost use Rattle.yt_live.specs.declared.serving.TheConstants.{INPUT_LIMIT};

use crate::ends::LiveEnd;
use base_devices::{LineRefusal, Lines, NextLine, Source};
use base_types::TryCopy;
use lang_forms::{Word, Words};
use lang_reader::read_session;
use lang_session::Session;
use run_base::{Violated, base_violation};
use run_serial::base_of;
use std::alloc::Global;

/// The text of a session, and whether lines may follow it.
#[derive(Drop)]
pub(crate) struct Opening {
    pub(crate) text: Vec<u8>,
    pub(crate) more: bool,
}

fn is_called_end(name: &[u8]) -> bool
    ensures { result ≡ same_name name.now (codes "end") }
{
    let word: &[u8] = b"end";
    name == word
}

// Whether the words are `end` alone.
fn is_end_alone(words: Words<'_>) -> bool
    ensures { result ≡ is_end_alone (words_of words.entry) }
{
    match words.split_first() {
        Some((Word::Name(name), rest)) => match rest.split_first() {
            None => is_called_end(name),
            Some(_) => false,
        },
        _ => false,
    }
}

// Whether the line holds `end` and no other word.
fn is_end(line: &[u8]) -> bool
    ensures { result ≡ is_end line.now }
{
    match Words::of(line) {
        Ok(words) => is_end_alone(words),
        Err(_) => false,
    }
}

// Adds a line and its line feed. The result is whether the text is then whole.
fn push_line(text: &mut Vec<u8>, line: &[u8]) -> Result<bool, LineRefusal>
    ensures pushed { OnOk result (text.new.items ≡ text.old.items ++ line.now ++ 10 ∷ []) }
    ensures whole { IfOk result (λ whole. whole ≡ is_end line.now) }
    ensures memory { IfErr result (λ refusal. refusal ≡ LineRefusal.Memory) }
{
    text.extend_from_slice(line)?;
    text.push(b'\n')?;
    Ok(is_end(line))
}

// The text with its last line, which has no line feed; after `end` one is added.
fn with_last(mut text: Vec<u8>, line: &[u8]) -> Result<Vec<u8>, LineRefusal>
    ensures last { IfOk result (λ all. all.items ≡ text.items ++ last_line line.now) }
    ensures memory { IfErr result (λ refusal. refusal ≡ LineRefusal.Memory) }
{
    text.extend_from_slice(line)?;
    if is_end(line) {
        text.push(b'\n')?;
    }
    Ok(text)
}

/// Reads the lines up to and with the first that holds `end` and no other word, or all lines if none does.
pub(crate) fn read_opening<S: Source>(
    alloc: Global,
    lines: &mut Lines,
    source: &mut S,
) -> Result<Opening, LineRefusal>
    requires fresh { lines.old.bytes ≡ [] }
    requires limit { lines.old.room ≡ INPUT_LIMIT }
    ensures opens { IfOk result (Opens (S.left source.old) (S.left source.new) lines.old
        lines.new) }
    ensures nothing { IfErr result (λ refusal. OpensNothing refusal (S.left source.old)
        (S.left source.new) lines.old) }
    ensures later { S.fault_count source.old ≤ S.fault_count source.new }
    ensures fault { IsErrOf result LineRefusal.ReadFault
        → Rose (S.fault_count source.old) (S.fault_count source.new) }
{
    let mut text = Vec::new(alloc);
    'each: loop {
        match lines.next(alloc, source)? {
            NextLine::Whole(line) => {
                if push_line(&mut text, &line)? {
                    return Ok(Opening { text, more: true });
                }
            }
            NextLine::Last(line) => {
                let text = with_last(text, &line)?;
                return Ok(Opening { text, more: false });
            }
        }
    }
}

/// The session that the text spells, whose base meets its mappings.
pub(crate) fn session_in(alloc: Global, text: &[u8]) -> Result<Session, LiveEnd>
    requires short { length text.now ≤ INPUT_LIMIT + 1 }
    ensures read { IfOk result (λ s. Spells text.now (session_of s)) }
    ensures meets { IfOk result (λ s. base_violation (session_of s) ≡ None) }
    ensures valid { IfOk result (λ s. IsSession (session_of s)) }
    ensures refused { IfErr result (RefusesText text.now) }
{
    let session = read_session(alloc, text)?;
    meeting(alloc, session)
}

// The session, if its base meets its mappings.
fn meeting(alloc: Global, session: Session) -> Result<Session, LiveEnd>
    requires valid { IsSession (session_of session) }
    ensures same { IfOk result (λ s. session_of s ≡ session_of session) }
    ensures meets { IfOk result (λ s. base_violation (session_of s) ≡ None) }
    ensures refused { IfErr result (RefusesBase (session_of session)) }
{
    let base = base_of(alloc, &session)?;
    match base_violation(alloc, &session, &base)? {
        None => Ok(session),
        Some(Violated { mapping, image }) => {
            let name = mapping.name.copy(alloc)?;
            Err(LiveEnd::BaseViolates {
                mapping: name,
                image,
                session,
            })
        }
    }
}

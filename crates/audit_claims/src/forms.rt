//! The form of a trace: its first line counts the others.
ghost use Rattle.std.specs.Prelude.{◌≡◌, ◌++◌, ◌∷◌, [], List, ℕ, true, IfNone, IfOk, IfSome};
ghost use Rattle.std.specs.List.{count_by};
ghost use Rattle.def_language.specs.Bytes.{is_line_feed};
ghost use Rattle.lang_reader.specs.Places.{IsOneLine};
ghost use Rattle.audit_claims.specs.Forms.{HasNoLines, IsCounted, counted};

use base_types::Memory;
use memchr::memchr;
use std::alloc::Global;

/// The lines after the first, if the text is `trace N` and N lines, each ended by a line feed; otherwise None.
pub fn counted_lines(alloc: Global, text: &[u8]) -> Result<Option<&[u8]>, Memory>
    ensures lines { IfOk result (λ found. IfSome found (λ rest.
        (lines : List (List ℕ)) × IsCounted text.now rest.now lines)) }
    ensures none { IfOk result (λ found. IfNone found (HasNoLines text.now)) }
{
    if !text.ends_with(b"\n") {
        return Ok(None);
    }
    let head = first_line_of(alloc, line_feeds(text) - 1)?;
    Ok(text.strip_prefix(head.as_slice()))
}

// The first line of a trace with `others` other lines.
fn first_line_of(alloc: Global, others: usize) -> Result<Vec<u8>, Memory>
    ensures line { IfOk result (λ line. line.items ≡ counted others []) }
{
    let line = format!(in alloc; "trace {others}\n")?;
    Ok(line.into_bytes())
}

// The number of line feeds in a text.
fn line_feeds(text: &[u8]) -> usize
    ensures count { result ≡ count_by is_line_feed text.now }
{
    text.iter().filter(|byte| **byte == b'\n').count()
}

/// The first line without its line feed, and what follows it; None if the text has no line feed.
pub fn first_line(lines: &[u8]) -> Option<(&[u8], &[u8])>
    ensures first { IfSome result (λ x. lines.now ≡ x.0.now ++ 10 ∷ x.1.now) }
    ensures single { IfSome result (λ x. IsOneLine x.0.now) }
    ensures none { IfNone result (IsOneLine lines.now) }
{
    let place = memchr(b'\n', lines)?;
    Some((&lines[..place], &lines[place + 1..]))
}

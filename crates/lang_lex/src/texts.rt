//! Texts in quotes.

ghost use Rattle.std.specs.Prelude.{◌≡◌, ◌+◌, ◌^◌, ◌<◌, ◌≤◌, [], IfErr, IfOk, MatchOption, Ok, Err, drop, length};
ghost use Rattle.def_language.specs.QuotedTexts.{closed, escaped, says, text_at, text_from};

use crate::bytes::bytes_from;
use crate::{LexRefusal, TokenKind};

/// The byte that a byte stands for directly after a backslash, if it may stand there.
pub(crate) fn escaped(byte: u8) -> Option<u8>
    ensures { result ≡ escaped byte }
{
    match byte {
        b'"' => Some(b'"'),
        b'\\' => Some(b'\\'),
        b'n' => Some(b'\n'),
        _ => None,
    }
}

// The next byte of a text, and the number of bytes that spell it; None at the closing quote.
#[tactic(auto, unfolding(def_language::specs::QuotedTexts::text_from))]
pub(crate) fn next_byte(
    opened: usize,
    place: usize,
    rest: &[u8],
) -> Result<Option<(u8, usize)>, LexRefusal>
    requires { place < 2 ^ 63 }
    ensures says { IfOk result (λ next. MatchOption next
        (text_from opened place rest.now ≡ Ok ([], 1))
        (λ x. text_from opened place rest.now ≡
        says x.0 x.1 (text_from opened (place + x.1) (drop x.1 rest.now)))) }
    ensures within { IfOk result (λ next. MatchOption next (1 ≤ length rest.now) (λ x. (1 ≤ x.1) ×
        (x.1 ≤ length rest.now))) }
    ensures fault { IfErr result (λ refusal. text_from opened place rest.now ≡ Err refusal) }
{
    match rest {
        [] => Err(LexRefusal::OpenText(opened)),
        [byte] => {
            if *byte == b'"' {
                Ok(None)
            } else {
                Err(LexRefusal::OpenText(opened))
            }
        }
        [byte, after, ..] => {
            if *byte == b'"' {
                return Ok(None);
            }
            if *byte != b'\\' {
                return Ok(Some((*byte, 1)));
            }
            match escaped(*after) {
                Some(said) => Ok(Some((said, 2))),
                None => Err(LexRefusal::BadByte(place + 1)),
            }
        }
    }
}

// A closed text of `count` bytes, which `width` bytes spell after its opening quote.
fn closed(opened: usize, count: usize, width: usize) -> Result<(TokenKind, usize), LexRefusal>
    requires { width < 2 ^ 63 }
    ensures gives { result ≡ closed opened count width }
{
    if 256 < count {
        Err(LexRefusal::LongText(opened))
    } else {
        Ok((TokenKind::Text, 1 + width))
    }
}

/// The text after its opening quote, which stands at `opened`.
pub(crate) fn text_at(opened: usize, rest: &[u8]) -> Result<(TokenKind, usize), LexRefusal>
    requires { opened + 1 + length rest.now < 2 ^ 63 }
    ensures gives { result ≡ text_at opened rest.now }
    ensures within { IfOk result (λ x. (1 ≤ x.1) × (x.1 ≤ 1 + length rest.now)) }
{
    let mut count = 0;
    let mut width = 0;
    'said: loop {
        match next_byte(opened, opened + 1 + width, bytes_from(rest, width))? {
            Some((_, more)) => {
                count += 1;
                width += more;
            }
            None => return closed(opened, count, width + 1),
        }
    }
}

//! A line token by token, with no list of its tokens.

ghost use Rattle.std.specs.Prelude.{◌≡◌, ◌∷◌, [], ◌<◌, ◌≤◌, false, true, Ok, Err, IfErr, IfOk, IfSome, MatchOption, length, slice_index};
ghost use Rattle.def_language.specs.LexAnswers.{place_in};
ghost use Rattle.def_language.specs.Bytes.{is_blank};
ghost use Rattle.def_language.specs.LineTokens.{is_faultless, tokens_at, tokens_from, with_front};
ghost use Rattle.def_language.specs.Spelling.{IsLongestIn, IsTokenAt};

use crate::bytes::{bytes_from, is_blank};
use crate::tokens::token_at;
use crate::{LexRefusal, Token};

// The first place from `place` on whose byte is no blank, or the end of the line.
fn after_blanks(line: &[u8], place: usize) -> usize
    requires { place ≤ length line.now }
    ensures same { tokens_from place line.now ≡ tokens_from result line.now }
    ensures stops { result < length line.now → is_blank (slice_index line.now result) ≡ false }
    ensures ahead { place ≤ result }
    ensures within { result ≤ length line.now }
{
    for from in place..line.len() {
        if !is_blank(line[from]) {
            return from;
        }
    }
    line.len()
}

// The first token from the place on, or the fault there.
fn token_from(line: &[u8], place: usize) -> Result<Option<Token>, LexRefusal>
    requires { place ≤ length line.now }
    ensures first { IfOk result (λ first. MatchOption first
        (tokens_from place line.now ≡ Ok [])
        (λ token. tokens_from place line.now ≡
        with_front (token ∷ []) (tokens_from token.to line.now))) }
    ensures ahead { IfOk result (λ first. IfSome first (λ token. place ≤ token.from)) }
    ensures spelled { IfOk result (λ first. IfSome first (IsTokenAt 0 line.now)) }
    ensures longest { IfOk result (λ first. IfSome first (IsLongestIn 0 line.now)) }
    ensures fault { IfErr result (λ refusal. tokens_from place line.now ≡ Err refusal) }
{
    let from = after_blanks(line, place);
    if from == line.len() {
        return Ok(None);
    }
    if line[from] == b'#' {
        return Ok(None);
    }
    let (kind, width) = token_at(from, bytes_from(line, from))?;
    let to = from + width;
    Ok(Some(Token { kind, from, to }))
}

/// Looks for the leftmost lexical fault of a line. If there is none, the whole line is tokens; otherwise the fault stands in the
/// line or at its end.
pub fn line_fault(line: &[u8]) -> Result<(), LexRefusal>
    ensures faultless { IfOk result (λ _. is_faultless 0 line.now ≡ true) }
    ensures fault { IfErr result (λ refusal. tokens_at 0 0 line.now ≡ Err refusal) }
    ensures within { IfErr result (λ refusal. place_in refusal ≤ length line.now) }
{
    let mut place = 0;
    'tokens: while let Some(token) = token_from(line, place)? {
        place = token.to;
    }
    Ok(())
}

/// The first token from the place on, in a line that has no fault there; `None` if only blanks and a comment are left. The other
/// tokens follow after this one, again without a fault.
pub fn next_token(line: &[u8], place: usize) -> Option<Token>
    requires within { place ≤ length line.now }
    requires faultless { is_faultless place line.now ≡ true }
    ensures first { MatchOption result
        (tokens_from place line.now ≡ Ok [])
        (λ token. tokens_from place line.now ≡
        with_front (token ∷ []) (tokens_from token.to line.now)) }
    ensures ahead { IfSome result (λ token. place ≤ token.from) }
    ensures spelled { IfSome result (IsTokenAt 0 line.now) }
    ensures longest { IfSome result (IsLongestIn 0 line.now) }
    ensures faultless { IfSome result (λ token. is_faultless token.to line.now ≡ true) }
{
    match token_from(line, place) {
        Ok(first) => first,
        Err(_) => unreachable!(),
    }
}

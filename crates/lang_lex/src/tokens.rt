//! The longest token at the front of some bytes.

ghost use Rattle.std.specs.Prelude.{◌≡◌, ◌+◌, ◌^◌, ◌<◌, ◌≤◌, IfOk, length};
ghost use Rattle.def_language.specs.Bytes.{digits_of, run, is_digit};
ghost use Rattle.def_language.specs.Tokens.{minus_at, null_at, number_at, point_at, sign, token_at};

use crate::bytes::{begins_name, digit_run, is_digit, name_run};
use crate::numbers::{is_wide, is_wide_part};
use crate::texts::text_at;
use crate::{LexRefusal, TokenKind};

#[tactic(auto, unfolding(def_language::specs::Tokens::number_at))]
fn number_at(
    place: usize,
    negative: bool,
    sign: usize,
    digits: &[u8],
) -> Result<(TokenKind, usize), LexRefusal>
    requires { sign + length digits.now < 2 ^ 63 }
    ensures gives { result ≡ number_at place negative sign digits.now }
    ensures within { IfOk result (λ x. (1 ≤ x.1) × (x.1 ≤ sign + length digits.now)) }
{
    let count = digit_run(digits);
    if count == 0 {
        Err(LexRefusal::BadByte(place))
    } else if is_wide(negative, &digits[..count]) {
        Err(LexRefusal::WideNumber(place))
    } else {
        Ok((TokenKind::Number, sign + count))
    }
}

#[tactic(auto, unfolding(def_language::specs::Tokens::minus_at))]
fn minus_at(place: usize, rest: &[u8]) -> Result<(TokenKind, usize), LexRefusal>
    requires { 1 + length rest.now < 2 ^ 63 }
    ensures gives { result ≡ minus_at place rest.now }
    ensures within { IfOk result (λ x. (1 ≤ x.1) × (x.1 ≤ 1 + length rest.now)) }
{
    match rest {
        [] => Err(LexRefusal::BadByte(place)),
        [b'>', ..] => Ok((TokenKind::Arrow, 2)),
        _ => number_at(place, true, 1, rest),
    }
}

#[tactic(auto, unfolding(def_language::specs::Tokens::point_at))]
fn point_at(place: usize, update: &[u8], rest: &[u8]) -> Result<(TokenKind, usize), LexRefusal>
    requires { length update.now + length rest.now < 2 ^ 63 }
    ensures gives { result ≡ point_at place update.now rest.now }
    ensures within { IfOk result (λ x. (1 ≤ x.1) ×
        (x.1 ≤ 1 + length update.now + length rest.now)) }
{
    let [b'.', digits @ ..] = rest else {
        return Err(LexRefusal::BadByte(place));
    };
    let count = digit_run(digits);
    if count == 0 {
        Err(LexRefusal::BadByte(place))
    } else if is_wide_part(update) || is_wide_part(&digits[..count]) {
        Err(LexRefusal::WideNumber(place))
    } else {
        Ok((TokenKind::Null, update.len() + 2 + count))
    }
}

#[tactic(auto, unfolding(def_language::specs::Tokens::null_at))]
fn null_at(place: usize, rest: &[u8]) -> Result<(TokenKind, usize), LexRefusal>
    ensures gives { result ≡ null_at place rest.now }
    ensures within { IfOk result (λ x. (1 ≤ x.1) × (x.1 ≤ 1 + length rest.now)) }
{
    let count = digit_run(rest);
    if count == 0 {
        return Err(LexRefusal::BadByte(place));
    }
    point_at(place, &rest[..count], &rest[count..])
}

fn sign(byte: u8) -> Option<TokenKind>
    ensures { result ≡ sign byte }
{
    match byte {
        b'(' => Some(TokenKind::Open),
        b')' => Some(TokenKind::Close),
        b',' => Some(TokenKind::Comma),
        b':' => Some(TokenKind::Colon),
        _ => None,
    }
}

/// The longest token at the front of the bytes, which stand at the place, and the number of bytes that spell it.
#[tactic(auto, unfolding(def_language::specs::Tokens::token_at))]
pub(crate) fn token_at(place: usize, bytes: &[u8]) -> Result<(TokenKind, usize), LexRefusal>
    requires { place + length bytes.now < 2 ^ 63 }
    ensures gives { result ≡ token_at place bytes.now }
    ensures within { IfOk result (λ x. (1 ≤ x.1) × (x.1 ≤ length bytes.now)) }
{
    let [byte, rest @ ..] = bytes else {
        return Err(LexRefusal::BadByte(place));
    };
    if begins_name(*byte) {
        return Ok((TokenKind::Name, 1 + name_run(rest)));
    }
    if is_digit(*byte) {
        return number_at(place, false, 0, bytes);
    }
    match *byte {
        b'-' => minus_at(place, rest),
        b'?' => null_at(place, rest),
        b'"' => text_at(place, rest),
        _ => match sign(*byte) {
            Some(kind) => Ok((kind, 1)),
            None => Err(LexRefusal::BadByte(place)),
        },
    }
}

//! The values of tokens: numbers, nulls and texts.

ghost use Rattle.std.specs.Prelude.{◌≡◌, ◌≤◌, IfOk, length, true};
ghost use Rattle.def_language.specs.Spelling.{null_of, number_of, spells, text_of};
ghost use Rattle.def_language.specs.declared.tokens.TokenKind.TheVariants.{Null, Number, Text};

use crate::bytes::{bytes_from, digit_run};
use crate::numbers::magnitude;
use crate::texts::next_byte;
use base_types::{List, Memory, OuterName, Word};
use std::alloc::{AllocError, Global};

/// The number that a token spells.
pub fn number_of(spelling: &[u8]) -> i64
    requires number { spells Number spelling.now ≡ true }
    ensures value { result ≡ number_of spelling.now }
{
    let [b'-', digits @ ..] = spelling else {
        return magnitude(spelling) as i64;
    };
    let value = magnitude(digits);
    if value == 1 << 63 {
        i64::MIN
    } else {
        -(value as i64)
    }
}

/// The name of the null that a token spells.
pub fn null_of(spelling: &[u8]) -> OuterName
    requires null { spells Null spelling.now ≡ true }
    ensures update { result.update ≡ (null_of spelling.now).0 }
    ensures place { result.place ≡ (null_of spelling.now).1 }
{
    let rest = bytes_from(spelling, 1);
    let count = digit_run(rest);
    let update = magnitude(&rest[..count]);
    let place = magnitude(bytes_from(rest, count + 1));
    OuterName {
        update: update as u32,
        place: place as u32,
    }
}

/// The bytes of the text that a token spells, without quotes and escapes: at most 256.
pub fn text_of(alloc: Global, spelling: &[u8]) -> Result<Word, Memory>
    requires text { spells Text spelling.now ≡ true }
    ensures said { IfOk result (λ word. word.items ≡ text_of spelling.now) }
    ensures short { IfOk result (λ word. length word.items ≤ 256) }
{
    let rest = bytes_from(spelling, 1);
    let mut said = Vec::new(alloc);
    let mut width = 0;
    'said: loop {
        let Ok(next) = next_byte(0, 1 + width, bytes_from(rest, width)) else {
            unreachable!()
        };
        let Some((byte, more)) = next else {
            return Ok(List::from_vec(said));
        };
        said.push(byte)?;
        width += more;
    }
}

//! Whether a value may stand in an operation.
ghost use Rattle.std.specs.Prelude.{◌≡◌, map};
ghost use Rattle.std.specs.List.{list_all};
ghost use Rattle.base_types.specs.Meanings.{datum_of, null_of};
ghost use Rattle.lang_session.specs.Admissible.{fits_datum, fits_null, fits_text, is_text};

use base_types::{Null, Value};
use lang_lex::utf8_end;

/// Whether the null is named by its outer form and comes from one of the first `before` updates.
pub(crate) fn fits_null(before: u32, null: Null) -> bool
    ensures { result ≡ fits_null before (null_of null) }
{
    null.attempt == 0 && null.update <= before
}

/// Whether bytes are UTF-8.
pub fn is_text(bytes: &[u8]) -> bool
    ensures { result ≡ is_text bytes.now }
{
    match utf8_end(bytes) {
        None => true,
        Some(_) => false,
    }
}

// Whether the text is at most 256 bytes of UTF-8.
fn fits_text(text: &[u8]) -> bool
    ensures { result ≡ fits_text text.now }
{
    text.len() <= 256 && is_text(text)
}

/// Whether the value may stand in an operation after `before` updates.
pub(crate) fn fits_value(before: u32, value: &Value) -> bool
    ensures { result ≡ fits_datum before (datum_of value.now) }
{
    match value {
        Value::Int(_) => true,
        Value::Word(text) => fits_text(text.as_slice()),
        Value::Null(null) => fits_null(before, *null),
    }
}

/// Whether all the values may stand in an operation after `before` updates.
pub(crate) fn fits_values(before: u32, values: &[Value]) -> bool
    ensures { result ≡ list_all (fits_datum before) (map datum_of values.now) }
{
    for value in values {
        if !fits_value(before, value) {
            return false;
        }
    }
    true
}

//! Values.

use crate::bytes::{Kind, name_run, run, text_of, unknown_run};
use crate::cursors::Cursor;
use crate::items::Item;
use std::alloc::AllocError;
use ws_fault::Refusal;
use ws_written::{NewValue, Unknown, Value};

const NEW: &str =
    "a new unknown may stand in `insert`, and in the second tuple of `replace`, alone";

const ANY: &str = "_ stands for any value in delete, replace, why and show";

const WRITE_NEW: &str = "a new unknown is written ?";

// Whether a bare word stands for an unknown value in other languages.
fn is_null_word(word: &str) -> bool {
    word.eq_ignore_ascii_case("null")
        || word.eq_ignore_ascii_case("none")
        || word.eq_ignore_ascii_case("na")
        || word.eq_ignore_ascii_case("nil")
        || word.eq_ignore_ascii_case("unknown")
}

// The name of a new unknown, empty if it has none, and the rest. None if there is no `?` here or a digit follows it.
fn new_run(bytes: &[u8]) -> Option<(&str, &[u8])> {
    let (name, rest) = run(bytes.strip_prefix(b"?")?, Kind::Name);
    match name {
        [first, ..] if first.is_ascii_digit() => None,
        _ => Some((text_of(name), rest)),
    }
}

// The digits without zeros in front.
fn bare_digits(digits: &str) -> &str {
    let bare = digits.trim_start_matches('0');
    if bare.is_empty() { "0" } else { bare }
}

// The name of an unknown. None if one of its numbers has more than 32 bits.
fn unknown_of(update: &str, place: &str) -> Option<Unknown> {
    let update = update.parse::<u32>().ok()?;
    let place = place.parse::<u32>().ok()?;
    Some(Unknown { update, place })
}

impl<'a> Cursor<'a> {
    /// Takes a number, a text, or an unknown by its name.
    pub(crate) fn value(&mut self) -> Result<Value, Refusal> {
        if let Some((update, place, rest)) = unknown_run(self.rest) {
            self.go_on(rest);
            return self.unknown(update, place);
        }
        if self.is_number() {
            return self.number_value();
        }
        if self.is_sign("\"") {
            return Ok(Value::Text(self.text()?));
        }
        self.no_value()
    }

    fn number_value(&mut self) -> Result<Value, Refusal> {
        let number = self.number("a number", i64::MIN, i64::MAX)?;
        if self.is_sign(".") {
            return self.fail("a comma or )");
        }
        Ok(Value::Number(number))
    }

    // The unknown of this name.
    fn unknown(&mut self, update: &str, place: &str) -> Result<Value, Refusal> {
        if let Some(unknown) = unknown_of(update, place) {
            return Ok(Value::Unknown(unknown));
        }
        self.is_strange = true;
        let update = bare_digits(update);
        let place = bare_digits(place);
        Ok(Value::Strange(format!(in self.alloc; "{update}.{place}")?))
    }

    // Refuses what stands here in the place of a value.
    fn no_value<T>(&self) -> Result<T, Refusal> {
        if self.is_sign("?") {
            return match new_run(self.rest) {
                Some(_) => self.fail_with("a value", NEW),
                None => self.fail("an unknown such as ?12.1"),
            };
        }
        match name_run(self.rest) {
            Some((word, _)) => self.fail_with("a value", self.bare_hint(word)?.as_str()),
            None => self.fail("a value"),
        }
    }

    // The hint for a bare word in the place of a value.
    fn bare_hint(&self, word: &str) -> Result<String, AllocError> {
        if word == "_" {
            return String::from_str(self.alloc, ANY);
        }
        if is_null_word(word) {
            return String::from_str(self.alloc, WRITE_NEW);
        }
        format!(in self.alloc; "did you mean \"{word}\"? A text stands between two \" signs")
    }
}

// A number, a text, or an unknown by its name.
impl Item for Value {
    fn read(cursor: &mut Cursor<'_>) -> Result<Value, Refusal> {
        cursor.value()
    }
}

// An unknown by its name.
impl Item for Unknown {
    fn read(cursor: &mut Cursor<'_>) -> Result<Unknown, Refusal> {
        match cursor.value()? {
            Value::Unknown(unknown) => Ok(unknown),
            _ => cursor.fail("an unknown such as ?12.1"),
        }
    }
}

// A value, or a new unknown.
impl Item for NewValue {
    fn read(cursor: &mut Cursor<'_>) -> Result<NewValue, Refusal> {
        let Some((name, rest)) = new_run(cursor.rest) else {
            return Ok(NewValue::Known(cursor.value()?));
        };
        cursor.go_on(rest);
        if name.is_empty() {
            return Ok(NewValue::Fresh);
        }
        Ok(NewValue::Named(String::from_str(cursor.alloc, name)?))
    }
}

// `_`, or an item.
impl<T: Item> Item for Option<T> {
    fn read(cursor: &mut Cursor<'_>) -> Result<Option<T>, Refusal> {
        if cursor.take_word("_") {
            return Ok(None);
        }
        Ok(Some(T::read(cursor)?))
    }
}

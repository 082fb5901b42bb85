//! The spelling of nulls, texts and values.

ghost use Rattle.std.specs.Prelude.{◌≡◌, ◌++◌, ◌∷◌, [], OnOk, OnErr, flat_map};
ghost use Rattle.std.specs.List.{list_all};
ghost use Rattle.def_language.specs.Layout.{null_text, quoted, written_byte};
ghost use Rattle.def_language.specs.Printing.{null_name_text, value_text};
ghost use Rattle.base_types.specs.Meanings.{datum_of, null_of};
ghost use Rattle.lang_schema.specs.Pages.{is_plain};
ghost use mathlib.Core.List.{IsPrefix};

use crate::numerals::{push_natural, push_number};
use crate::plain::push_plain;
use base_types::{Null, OuterName, Value};
use std::alloc::AllocError;

// Adds the null of this name.
fn push_null(out: &mut Vec<u8>, name: OuterName) -> Result<(), AllocError>
    ensures ok { OnOk result (out.new.items ≡
        out.old.items ++ null_text name.update name.place) }
    ensures err { OnErr result (IsPrefix out.old.items out.new.items) }
{
    out.push(b'?')?;
    push_natural(out, name.update)?;
    out.push(b'.')?;
    push_natural(out, name.place)
}

// Adds a null by its outer name, or by its inner name with the attempt. Never inlined, so that numbers need not save registers
// for it.
#[inline(never)]
fn push_null_name(out: &mut Vec<u8>, inner: bool, null: Null) -> Result<(), AllocError>
    ensures ok { OnOk result (out.new.items ≡
        out.old.items ++ null_name_text inner (null_of null)) }
    ensures err { OnErr result (IsPrefix out.old.items out.new.items) }
{
    push_null(out, null.outer_name())?;
    if !inner {
        return Ok(());
    }
    out.push(b'@')?;
    push_natural(out, null.attempt)
}

// Adds a byte of a text.
fn push_byte(out: &mut Vec<u8>, byte: u8) -> Result<(), AllocError>
    ensures ok { OnOk result (out.new.items ≡ out.old.items ++ written_byte byte) }
    ensures err { OnErr result (IsPrefix out.old.items out.new.items) }
{
    if byte == b'"' {
        return out.extend_from_slice(b"\\\"");
    }
    if byte == b'\\' {
        return out.extend_from_slice(b"\\\\");
    }
    if byte == b'\n' {
        return out.extend_from_slice(b"\\n");
    }
    out.push(byte)?;
    Ok(())
}

// Adds the bytes of a text one by one.
fn push_bytes(out: &mut Vec<u8>, text: &[u8]) -> Result<(), AllocError>
    ensures ok { OnOk result (out.new.items ≡ out.old.items ++ flat_map written_byte text.now) }
    ensures err { OnErr result (IsPrefix out.old.items out.new.items) }
{
    for byte in text {
        push_byte(out, *byte)?;
    }
    Ok(())
}

// Whether the byte is written as it is.
fn is_plain(byte: u8) -> bool
    ensures { result ≡ is_plain byte }
{
    byte != b'"' && byte != b'\\' && byte != b'\n'
}

// Whether each byte of the text is written as it is.
fn is_plain_text(text: &[u8]) -> bool
    ensures { result ≡ list_all is_plain text.now }
{
    text.iter().all(|byte| is_plain(*byte))
}

// Adds a text without its quotes.
fn push_inside(out: &mut Vec<u8>, text: &[u8]) -> Result<(), AllocError>
    ensures ok { OnOk result (out.new.items ≡ out.old.items ++ flat_map written_byte text.now) }
    ensures err { OnErr result (IsPrefix out.old.items out.new.items) }
{
    if is_plain_text(text) {
        return push_plain(out, text);
    }
    push_bytes(out, text)
}

/// Adds a text in quotes. Never inlined, for the same reason as nulls.
#[inline(never)]
pub(crate) fn push_text(out: &mut Vec<u8>, text: &[u8]) -> Result<(), AllocError>
    ensures ok { OnOk result (out.new.items ≡ out.old.items ++ quoted text.now) }
    ensures err { OnErr result (IsPrefix out.old.items out.new.items) }
{
    out.push(b'"')?;
    push_inside(out, text)?;
    out.push(b'"')?;
    Ok(())
}

/// Adds a value, a null by its inner name if `inner` holds.
pub(crate) fn push_value(out: &mut Vec<u8>, inner: bool, value: &Value) -> Result<(), AllocError>
    ensures ok { OnOk result (out.new.items ≡
        out.old.items ++ value_text inner (datum_of value.now)) }
    ensures err { OnErr result (IsPrefix out.old.items out.new.items) }
{
    match value {
        Value::Int(number) => push_number(out, *number),
        Value::Word(text) => push_text(out, text.as_slice()),
        Value::Null(null) => push_null_name(out, inner, *null),
    }
}

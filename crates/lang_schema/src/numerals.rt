//! Numbers in plain decimal.

ghost use Rattle.std.specs.Prelude.{◌≡◌, ◌+◌, ◌++◌, ◌<◌, ◌≤◌, OnOk, OnErr};
ghost use Rattle.std.specs.Fmt.{decimal, signed_decimal};
ghost use mathlib.Core.List.{IsPrefix};

use itoa::Buffer;
use std::alloc::AllocError;

/// A number in plain decimal.
pub(crate) fn push_number(out: &mut Vec<u8>, number: i64) -> Result<(), AllocError>
    ensures ok { OnOk result (out.new.items ≡ out.old.items ++ signed_decimal number) }
    ensures err { OnErr result (IsPrefix out.old.items out.new.items) }
{
    if let Ok(natural) = u32::try_from(number) {
        return push_natural(out, natural);
    }
    push_long(out, number)
}

/// Adds a number that is not negative in plain decimal. Short ones go digit by digit, which costs less than filling and copying a
/// buffer.
pub(crate) fn push_natural(out: &mut Vec<u8>, number: u32) -> Result<(), AllocError>
    ensures ok { OnOk result (out.new.items ≡ out.old.items ++ decimal number) }
    ensures err { OnErr result (IsPrefix out.old.items out.new.items) }
{
    if number < 10 {
        return push_one(out, number);
    }
    if number < 100 {
        return push_two(out, number);
    }
    if number < 1000 {
        return push_three(out, number);
    }
    if number < 10_000 {
        return push_four(out, number);
    }
    push_long(out, i64::from(number))
}

// Adds a number of any length. Never inlined, so that short ones need not save registers for it.
#[inline(never)]
fn push_long(out: &mut Vec<u8>, number: i64) -> Result<(), AllocError>
    ensures ok { OnOk result (out.new.items ≡ out.old.items ++ signed_decimal number) }
    ensures err { OnErr result (IsPrefix out.old.items out.new.items) }
{
    let mut spelled = Buffer::new();
    out.extend_from_slice(spelled.format(number).as_bytes())
}

// The glyph of a digit.
fn glyph(digit: u32) -> u8
    requires { digit < 10 }
    ensures { result ≡ 48 + digit }
{
    b'0' + digit as u8
}

// Adds a number of one digit.
fn push_one(out: &mut Vec<u8>, number: u32) -> Result<(), AllocError>
    requires { number < 10 }
    ensures ok { OnOk result (out.new.items ≡ out.old.items ++ decimal number) }
    ensures err { OnErr result (IsPrefix out.old.items out.new.items) }
{
    out.push(glyph(number))?;
    Ok(())
}

// Adds a number of two digits.
fn push_two(out: &mut Vec<u8>, number: u32) -> Result<(), AllocError>
    requires low { 10 ≤ number }
    requires high { number < 100 }
    ensures ok { OnOk result (out.new.items ≡ out.old.items ++ decimal number) }
    ensures err { OnErr result (IsPrefix out.old.items out.new.items) }
{
    push_one(out, number / 10)?;
    push_one(out, number % 10)
}

// Adds a number of three digits.
fn push_three(out: &mut Vec<u8>, number: u32) -> Result<(), AllocError>
    requires low { 100 ≤ number }
    requires high { number < 1000 }
    ensures ok { OnOk result (out.new.items ≡ out.old.items ++ decimal number) }
    ensures err { OnErr result (IsPrefix out.old.items out.new.items) }
{
    push_two(out, number / 10)?;
    push_one(out, number % 10)
}

// Adds a number of four digits.
fn push_four(out: &mut Vec<u8>, number: u32) -> Result<(), AllocError>
    requires low { 1000 ≤ number }
    requires high { number < 10000 }
    ensures ok { OnOk result (out.new.items ≡ out.old.items ++ decimal number) }
    ensures err { OnErr result (IsPrefix out.old.items out.new.items) }
{
    push_three(out, number / 10)?;
    push_one(out, number % 10)
}

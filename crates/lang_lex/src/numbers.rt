//! The numbers that digits write.

ghost use Rattle.std.specs.Prelude.{◌≡◌, ◌-◌, ◌^◌, min};
ghost use Rattle.def_language.specs.Numbers.{digits_value, is_wide, is_wide_part};

/// The number that the digits write, or the greatest `u64` if the number is greater.
pub(crate) fn magnitude(digits: &[u8]) -> u64
    ensures { result ≡ min (digits_value digits.now) (2 ^ 64 - 1) }
{
    let mut value = 0u64;
    for digit in digits {
        value = value
            .saturating_mul(10)
            .saturating_add(u64::from(digit.saturating_sub(b'0')));
    }
    value
}

/// Whether the number, negative or not, is outside `i64`.
pub(crate) fn is_wide(negative: bool, digits: &[u8]) -> bool
    ensures { result ≡ is_wide negative digits.now }
{
    let value = magnitude(digits);
    if negative {
        1 << 63 < value
    } else {
        1 << 63 <= value
    }
}

/// Whether the part of a null is outside `u32`.
pub(crate) fn is_wide_part(digits: &[u8]) -> bool
    ensures { result ≡ is_wide_part digits.now }
{
    4294967295 < magnitude(digits)
}

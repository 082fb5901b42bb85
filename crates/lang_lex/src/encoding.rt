//! Whether bytes are UTF-8.

ghost use Rattle.std.specs.Prelude.{IfNone, IfSome, IsUtf8};
ghost use Rattle.std.specs.Str.{IsValidUpTo};

use std::str;

/// The place where the bytes stop being UTF-8: the length of their longest prefix that is whole UTF-8. None exactly if all bytes
/// are UTF-8.
pub fn utf8_end(bytes: &[u8]) -> Option<usize>
    ensures whole { IfNone result (IsUtf8 bytes.now) }
    ensures place { IfSome result (IsValidUpTo bytes.now) }
{
    match str::from_utf8(bytes) {
        Ok(_) => None,
        Err(error) => Some(error.valid_up_to()),
    }
}

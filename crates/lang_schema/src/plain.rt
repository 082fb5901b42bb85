//! Bytes that are added without any change.

ghost use Rattle.std.specs.Prelude.{◌≡◌, ◌++◌, OnOk, OnErr};
ghost use mathlib.Core.List.{IsPrefix};

use std::alloc::AllocError;

/// Adds the bytes as they are. A few are added one by one, which costs less than a copy.
pub(crate) fn push_plain(out: &mut Vec<u8>, bytes: &[u8]) -> Result<(), AllocError>
    ensures ok { OnOk result (out.new.items ≡ out.old.items ++ bytes.now) }
    ensures err { OnErr result (IsPrefix out.old.items out.new.items) }
{
    if bytes.len() > 6 {
        return out.extend_from_slice(bytes);
    }
    for byte in bytes {
        out.push(*byte)?;
    }
    Ok(())
}

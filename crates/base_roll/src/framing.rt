// Frames: a length in 4 bytes, and that number of bytes after it.
ghost use Rattle.std.specs.Prelude.{◌≡◌, ◌<◌, ◌≤◌, ◌^◌, ◌++◌, ◌∷◌, [], ℕ, List, length, IfOk, IfSome, IfNone, OnOk};
ghost use Rattle.base_roll.specs.Format.{framed, opened};

use def_memory::Memory;
use std::alloc::Global;

/// Adds the frame of the payload: its length, and the payload.
#[tactic(auto, unfolding(crate::specs::Format::framed))]
pub fn push_frame(text: &mut Vec<u8>, payload: &[u8]) -> Result<(), Memory>
    requires { length payload.now < 2 ^ 32 }
    ensures { OnOk result (text.new.items ≡ text.old.items ++ framed payload.now) }
{
    let count = payload.len() as u32;
    text.extend_from_slice(&count.to_be_bytes())?;
    text.extend_from_slice(payload)?;
    Ok(())
}

/// Adds an open gate, and the frame of the payload after it.
pub fn push_record(text: &mut Vec<u8>, payload: &[u8]) -> Result<(), Memory>
    requires { length payload.now < 2 ^ 32 }
    ensures { OnOk result (text.new.items ≡ text.old.items ++ opened payload.now) }
{
    text.push(1)?;
    push_frame(text, payload)
}

/// The frame of the payload, and a closed gate after it.
pub fn with_gate(alloc: Global, payload: &[u8]) -> Result<Vec<u8>, Memory>
    requires { length payload.now ≤ 4294967295 }
    ensures { IfOk result (λ made. made.items ≡ framed payload.now ++ (0 ∷ [])) }
{
    let mut record = Vec::with_capacity(alloc, payload.len() + 5)?;
    push_frame(&mut record, payload)?;
    record.push(0)?;
    Ok(record)
}

/// The payload of the frame at the front, and the bytes after the frame; None if there is no whole frame.
pub fn split_frame(bytes: &[u8]) -> Option<(&[u8], &[u8])>
    ensures some { IfSome result (λ parts. bytes.now ≡ framed parts.0.now ++ parts.1.now) }
    ensures short { IfSome result (λ parts. length parts.0.now < 2 ^ 32) }
    ensures none { IfNone result
        ((payload rest : List ℕ) → length payload < 2 ^ 32 → bytes.now ≡ framed payload ++ rest
        → ⊥) }
{
    if bytes.len() < 4 {
        return None;
    }
    let (front, rest) = bytes.split_at(4);
    let count = u32::from_be_bytes([front[0], front[1], front[2], front[3]]) as usize;
    if rest.len() < count {
        return None;
    }
    Some(rest.split_at(count))
}

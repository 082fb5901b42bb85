// Marks, and payloads that have them.
ghost use Rattle.std.specs.Prelude.{◌↔◌, IsTrue, ◌≡◌, ◌++◌, ◌∷◌, [], length, take, IfOk, IfSome, IfNone};
ghost use Rattle.sha2.specs.Sha256.{sha256};
ghost use Rattle.ws_seal.specs.Seals.{HasNoSeal, mark, sealed};

use def_memory::Memory;
use sha2::{Digest, Sha256};
use std::alloc::Global;

/// The first 8 bytes of a digest, as 16 hexadecimal digits.
#[derive(Clone, Copy, Debug, PartialEq, Eq)]
pub struct Mark {
    pub digits: [u8; 16],
}

// The digest of `before` followed by `text`.
fn digest_of(before: &[u8], text: &[u8]) -> [u8; 32]
    ensures { result ≡ sha256 (before.now ++ text.now) }
{
    let mut hasher = Sha256::new();
    hasher.update(before);
    hasher.update(text);
    hasher.finalize()
}

/// The mark of a text after the mark `before`, which is empty for a head.
#[tactic(auto, unfolding(crate::specs::Seals::mark))]
pub fn mark_of(before: &[u8], text: &[u8]) -> Mark
    ensures { result.digits ≡ mark before.now text.now }
{
    let digest = digest_of(before, text);
    let mut digits = [0u8; 16];
    hex::encode_to_slice(&digest[..8], &mut digits).unwrap();
    Mark { digits }
}

/// The payload of a text, and its mark.
pub(crate) fn seal(alloc: Global, before: &[u8], text: &[u8]) -> Result<(Vec<u8>, Mark), Memory>
    ensures payload { IfOk result (λ made. made.0.items ≡ sealed before.now text.now) }
    ensures marked { IfOk result (λ made. made.1.digits ≡ mark before.now text.now) }
{
    let mark = mark_of(before, text);
    let mut payload = Vec::with_capacity(alloc, text.len() + 17)?;
    payload.extend_from_slice(&mark.digits)?;
    payload.push(b'\n')?;
    payload.extend_from_slice(text)?;
    Ok((payload, mark))
}

// Whether both are the same bytes.
fn are_same(found: &[u8], wanted: &[u8]) -> bool
    ensures { IsTrue result ↔ (found.now ≡ wanted.now) }
{
    found == wanted
}

/// The mark and the text of a payload. None if the payload does not have the right mark.
pub(crate) fn unseal<'a>(before: &[u8], payload: &'a [u8]) -> Option<(Mark, &'a [u8])>
    ensures payload { IfSome result (λ parts. payload.now ≡ sealed before.now parts.1.now) }
    ensures marked { IfSome result (λ parts. parts.0.digits ≡ mark before.now parts.1.now) }
    ensures none { IfNone result (HasNoSeal before.now payload.now) }
{
    if payload.len() < 17 {
        return None;
    }
    let (front, text) = payload.split_at(17);
    let mark = mark_of(before, text);
    if front[16] != b'\n' {
        return None;
    }
    if !are_same(&front[..16], &mark.digits) {
        return None;
    }
    Some((mark, text))
}

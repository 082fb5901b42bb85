// A reply is written only after the text is acknowledged.
ghost use Rattle.std.specs.Prelude.{◌≡◌, ◌⊎◌, ◌++◌, ◌∷◌, [], ℕ, List, OnOk};
ghost use Rattle.std.specs.Io.KnownBytes.{Appends};
ghost use Rattle.base_roll.specs.Rolls.{IsInHand};
ghost use Rattle.ws_seal.specs.Logs.{IsHeld};

use crate::logs::{AppendFault, Log};
use base_devices::{Disk, Sink, write_all};
use std::alloc::Global;

/// Why a text was not appended, or the reply not written.
#[derive(Clone, Copy, Debug, PartialEq, Eq)]
pub enum TellFault {
    /// The text is not acknowledged, and nothing was written to the sink.
    NotAppended(AppendFault),
    /// The text is acknowledged, but the sink failed.
    NotTold,
}

impl From<AppendFault> for TellFault {
    fn from(fault: AppendFault) -> TellFault {
        TellFault::NotAppended(fault)
    }
}

/// Appends a text, and then writes the reply. No byte of the reply reaches the sink before the text is acknowledged. So once a
/// reply is seen, every image that a crash may leave has the text.
pub fn append_and_tell<D: Disk + Drop, S: Sink>(
    alloc: Global,
    log: &mut Log<D>,
    text: &[u8],
    sink: &mut S,
    reply: &[u8],
) -> Result<(), TellFault>
    requires hand { IsInHand (D.state log.old.disk) (record { gate = log.old.gate }) }
    ensures replied { OnOk result (Appends (S.taken sink.old) (S.taken sink.new) reply.now) }
    ensures lasts { (before m : List ℕ) (texts : List (List ℕ))
        → IsHeld before m texts (D.state log.old.disk) log.old.gate log.old.mark.digits
        → (S.taken sink.new ≡ S.taken sink.old)
        ⊎ IsHeld before m (texts ++ text.now ∷ []) (D.state log.new.disk) log.new.gate
        log.new.mark.digits }
{
    log.append(alloc, text)?;
    match write_all(sink, reply) {
        Ok(()) => Ok(()),
        Err(_) => Err(TellFault::NotTold),
    }
}

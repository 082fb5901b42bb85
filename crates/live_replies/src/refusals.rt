//! Replies with fixed words.
ghost use Rattle.std.specs.Prelude.{◌≡◌, IfOk};
ghost use Rattle.core_entries.specs.Meanings.{standing_of};
ghost use Rattle.audit_trace.specs.Traces.{standing_name};
ghost use Rattle.live_replies.specs.Texts.{refused_line, word_of};
ghost use Rattle.live_replies.specs.Meanings.{refusal_meant};

use base_types::Memory;
use core_entries::Standing;
use std::alloc::Global;

/// Why a command makes no event.
#[derive(Clone, Copy, Debug)]
pub(crate) enum Refusal {
    /// The line is no command.
    Line,
    /// No update has the label, or one has it already.
    Label,
    /// No relation has the fact's name, or it has another number of columns.
    Fact,
    /// The session has the most updates that it may have.
    Full,
    /// A null is not of a lower update.
    Null,
    /// The update is committed.
    Committed,
    /// The update's standing does not allow the command.
    Stands(Standing),
    /// The choice does not answer the question.
    Misfit,
}

fn standing_word(standing: Standing) -> &'static [u8]
    ensures { result.now ≡ standing_name (standing_of standing) }
{
    match standing {
        Standing::Ready => b"ready",
        Standing::Held(_) => b"held",
        Standing::Pending => b"pending",
        Standing::Misfit => b"misfit",
        Standing::Done => b"done",
        Standing::Spent => b"spent",
        Standing::Refused => b"refused",
        Standing::Withdrawn => b"withdrawn",
    }
}

fn refusal_word(refusal: Refusal) -> &'static [u8]
    ensures { result.now ≡ word_of (refusal_meant refusal) }
{
    match refusal {
        Refusal::Line => b"line",
        Refusal::Label => b"label",
        Refusal::Fact => b"fact",
        Refusal::Full => b"full",
        Refusal::Null => b"null",
        Refusal::Committed => b"committed",
        Refusal::Stands(standing) => standing_word(standing),
        Refusal::Misfit => b"misfit",
    }
}

/// The reply to a command that is refused.
pub(crate) fn refused(alloc: Global, refusal: Refusal) -> Result<Vec<u8>, Memory>
    ensures { IfOk result (λ text. text.items ≡ refused_line (refusal_meant refusal)) }
{
    let mut text = Vec::from_slice(alloc, b"refused ")?;
    text.extend_from_slice(refusal_word(refusal))?;
    text.push(b'\n')?;
    Ok(text)
}

/// A reply with these words.
pub(crate) fn words(alloc: Global, words: &[u8]) -> Result<Vec<u8>, Memory>
    ensures { IfOk result (λ text. text.items ≡ words.now) }
{
    Ok(Vec::from_slice(alloc, words)?)
}

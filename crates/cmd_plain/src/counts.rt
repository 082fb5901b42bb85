//! The numbers of a session's parts, as the command `check` prints them.
ghost use Rattle.std.specs.Prelude.{◌≡◌, ◌≤◌, ◌<◌, ◌^◌, map, IfOk, sum_by, length};
ghost use Rattle.def_language.specs.Sessions.{answer_count};
ghost use Rattle.lang_session.specs.Meanings.{session_of, update_of};
ghost use Rattle.cmd_plain.specs.Commands.{count_line};

use base_types::Memory;
use lang_session::{Session, SessionUpdate};
use std::alloc::Global;

// The number of answers of all updates.
fn count_answers(updates: &[SessionUpdate]) -> u64
    requires { answer_count (map update_of updates.now) < 2 ^ 64 }
    ensures { result ≡ answer_count (map update_of updates.now) }
{
    let mut count = 0;
    for update in updates {
        count += update.answers.len() as u64;
    }
    count
}

/// The line with the numbers of a session's parts.
pub(crate) fn count_line(alloc: Global, session: &Session) -> Result<Vec<u8>, Memory>
    requires { answer_count (session_of session.now).updates < 2 ^ 64 }
    ensures { IfOk result (λ line. line.items ≡ count_line (session_of session.now)) }
{
    let relations = session.schema.len();
    let mappings = session.mappings.len();
    let base = session.base.len();
    let updates = session.updates.len();
    let answers = count_answers(session.updates.as_slice());
    let line = format!(in alloc;
        "ok relations {relations} mappings {mappings} base {base} updates {updates} answers {answers}\n"
    )?;
    Ok(line.into_bytes())
}

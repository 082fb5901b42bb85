//! The commands that only look at a session: `format`, `upgrade` and `check`.
ghost use Rattle.std.specs.Prelude.{◌≡◌, IfOk};
ghost use Rattle.cmd_frame.specs.Outputs.{view_of};
ghost use Rattle.def_language.specs.Validity.{IsSession};
ghost use Rattle.lang_session.specs.Meanings.{session_of};
ghost use Rattle.cmd_plain.specs.Commands.{checked, formatted, upgraded_text};

use crate::base::met_base;
use crate::counts::count_line;
use crate::reading::SessionCommand;
use base_types::Memory;
use cmd_frame::{Ending, Output};
use lang_print::{print_session, print_upgraded};
use lang_session::Session;
use std::alloc::Global;

/// `format`: the session's printed form.
#[derive(Clone, Copy, Debug)]
pub struct Format;

/// `upgrade`: the printed form of the session in format 2.
#[derive(Clone, Copy, Debug)]
pub struct Upgrade;

/// `check`: the numbers of the session's parts, if its base meets the mappings that are in force from the start.
#[derive(Clone, Copy, Debug)]
pub struct Check;

// The output of `check` for the session.
fn checked(alloc: Global, session: &Session) -> Result<Output, Memory>
    requires valid { IsSession (session_of session.now) }
    ensures checked { IfOk result (λ output. view_of output ≡ checked (session_of session.now)) }
{
    match met_base(alloc, session)? {
        Ok(_) => Ok(Output::Text(Ending::Ended, count_line(alloc, session)?)),
        Err(refusal) => Ok(refusal),
    }
}

impl SessionCommand for Format {
    ghost makes = { λ _ s output. output ≡ formatted s };

    fn make(&self, alloc: Global, session: Session) -> Result<Output, Memory> {
        Ok(Output::Text(Ending::Ended, print_session(alloc, &session)?))
    }
}

impl SessionCommand for Upgrade {
    ghost makes = { λ _ s output. output ≡ upgraded_text s };

    fn make(&self, alloc: Global, session: Session) -> Result<Output, Memory> {
        Ok(Output::Text(Ending::Ended, print_upgraded(alloc, &session)?))
    }
}

impl SessionCommand for Check {
    ghost makes = { λ _ s output. output ≡ checked s };

    fn make(&self, alloc: Global, session: Session) -> Result<Output, Memory> {
        checked(alloc, &session)
    }
}

//! The commands that run a session's updates on one thread: `serial` prints the result, and `save` prints the repository that is
//! left as a session.
ghost use Rattle.std.specs.Prelude.{◌≡◌, None, IfErr, IfOk};
ghost use Rattle.cmd_frame.specs.Outputs.{OutputView, view_of};
ghost use Rattle.def_language.specs.Validity.{IsSession};
ghost use Rattle.chase_update.specs.Results.{result_of};
ghost use Rattle.lang_report.specs.Results.{serial_told};
ghost use Rattle.lang_session.specs.Base.{base_violation};
ghost use Rattle.lang_session.specs.Meanings.{session_of};
ghost use Rattle.cmd_plain.specs.Commands.{unless_violated};
ghost use Rattle.cmd_plain.specs.Runs.{ending_by, kept, ran, result_output, saved_output, too_large_line};

use crate::base::met_base;
use crate::reading::SessionCommand;
use base_limits::Budget;
use base_types::Memory;
use chase_update::SessionResult;
use cmd_frame::{Ending, Output, Refusal};
use lang_print::print_session;
use lang_report::{SaveRefusal, result_text, saved};
use lang_session::Session;
use run_serial::serial_over;
use std::alloc::Global;
use std::mem;

/// `serial`: runs the updates whole, one after the other, and prints how each ended, where they stopped, if they did, and the
/// repository that they leave.
#[derive(Clone, Copy, Debug)]
pub struct Serial {
    /// The number of steps that an update may make.
    pub budget: Budget,
}

/// `save`: runs the updates whole, one after the other, and prints the session that begins with what they leave.
#[derive(Clone, Copy, Debug)]
pub struct Save {
    /// The number of steps that an update may make.
    pub budget: Budget,
}

/// How a command ends if its run has this result: it stopped at a question, or did not.
pub fn ending_by(told: &SessionResult) -> Ending
    ensures { result ≡ ending_by (result_of told.now).stop }
{
    match told.stop {
        None => Ending::Ended,
        Some(_) => Ending::Stuck,
    }
}

// The output of `serial` for a run.
fn result_output(alloc: Global, session: &Session, told: &SessionResult) -> Result<Output, Memory>
    ensures { IfOk result (λ output. view_of output ≡
        result_output (session_of session.now) (result_of told.now)) }
{
    let text = result_text(alloc, session, told)?;
    Ok(Output::Text(ending_by(told), text))
}

/// The line that says that an output is too large.
pub(crate) fn too_large_line(alloc: Global) -> Result<Vec<u8>, Memory>
    ensures { IfOk result (λ line. line.items ≡ too_large_line) }
{
    let mut line = Vec::new(alloc);
    line.extend_from_slice(b"youtopia: output too large\n")?;
    Ok(line)
}

// The output of `save` for a run.
fn saved_output(alloc: Global, session: Session, told: &SessionResult) -> Result<Output, Memory>
    ensures { IfOk result (λ output. view_of output ≡
        saved_output (session_of session) (result_of told.now)) }
{
    match saved(alloc, session, told) {
        Ok(begun) => Ok(Output::Text(ending_by(told), print_session(alloc, &begun)?)),
        Err(SaveRefusal::TooLarge { .. }) => Ok(Output::Refused(
            Refusal::TooLarge,
            too_large_line(alloc)?,
        )),
        Err(SaveRefusal::Memory) => Err(Memory),
    }
}

// The result of a run of the session, or the refusal if its base violates a mapping.
fn told_of(
    alloc: Global,
    session: &Session,
    budget: Budget,
) -> Result<Result<SessionResult, Output>, Memory>
    requires valid { IsSession (session_of session.now) }
    ensures told { IfOk result (λ found. IfOk found (λ told.
        result_of told ≡ serial_told budget (session_of session.now))) }
    ensures met { IfOk result (λ found. IfOk found (λ _.
        base_violation (session_of session.now) ≡ None)) }
    ensures violated { IfOk result (λ found. IfErr found (λ refusal. (output : OutputView) →
        view_of refusal ≡ unless_violated (session_of session.now) output
        (base_violation (session_of session.now)))) }
{
    match met_base(alloc, session)? {
        Ok(base) => Ok(Ok(serial_over(alloc, session, base, budget)?)),
        Err(refusal) => Ok(Err(refusal)),
    }
}

// The output of `serial` for the session.
fn ran(alloc: Global, session: &Session, budget: Budget) -> Result<Output, Memory>
    requires valid { IsSession (session_of session.now) }
    ensures ran { IfOk result
        (λ output. view_of output ≡ ran budget (session_of session.now)) }
{
    match told_of(alloc, session, budget)? {
        Ok(told) => {
            let output = result_output(alloc, session, &told);
            // The process ends with the command, which frees the result at once.
            mem::forget(told);
            output
        }
        Err(refusal) => Ok(refusal),
    }
}

impl SessionCommand for Serial {
    ghost makes = { λ c s output. output ≡ ran c.budget s };

    fn make(&self, alloc: Global, session: Session) -> Result<Output, Memory> {
        ran(alloc, &session, self.budget)
    }
}

impl SessionCommand for Save {
    ghost makes = { λ c s output. output ≡ kept c.budget s };

    fn make(&self, alloc: Global, session: Session) -> Result<Output, Memory> {
        match told_of(alloc, &session, self.budget)? {
            Ok(told) => saved_output(alloc, session, &told),
            Err(refusal) => Ok(refusal),
        }
    }
}

//! A command on a session, as a command on the bytes that spell it.
ghost use Rattle.std.specs.Prelude.{◌≡◌, ◌++◌, ◌∷◌, [], codes, IfOk};
ghost use Rattle.cmd_frame.specs.Outputs.{view_of};
ghost use Rattle.def_language.specs.Faults.{wrong_text};
ghost use Rattle.def_language.specs.Sessions.{SessionData};
ghost use Rattle.def_language.specs.Validity.{IsSession};
ghost use Rattle.cmd_frame.specs.Outputs.{OutputView, Refused};
ghost use Rattle.cmd_frame.specs.declared.outputs.Refusal.TheVariants.{SessionRefused};
ghost use Rattle.lang_reader.specs.Answers.{wrong_of};
ghost use Rattle.lang_session.specs.Meanings.{session_of};
ghost use Rattle.cmd_plain.specs.Commands.{fault_line, on_session_by};

use base_types::Memory;
use cmd_frame::{Command, Output, Refusal};
use lang_reader::{ReadFailure, SessionFault, fault_text, read_session};
use lang_session::Session;
use std::alloc::Global;

/// What a command makes of a session.
pub trait SessionCommand {
    /// What the command may make of a session: one output if it is a function, any of several if threads decide.
    ghost makes: { Self → SessionData → OutputView → Type 0 };

    /// Makes an output for a valid session. It takes the memory for the whole output.
    fn make(&self, alloc: Global, session: Session) -> Result<Output, Memory>
        requires valid { IsSession (session_of session) }
        ensures output { IfOk result (λ output. makes self.now (session_of session)
            (view_of output)) };
}

/// A command on the session that the input spells. An input that spells none is refused with its first fault.
#[derive(Drop)]
pub struct OnSession<C: SessionCommand>(pub C);

// The line with the first fault of an input.
fn fault_line(alloc: Global, fault: &SessionFault) -> Result<Vec<u8>, Memory>
    ensures { IfOk result (λ line. line.items ≡ fault_line (wrong_of fault.now)) }
{
    let text = fault_text(alloc, fault)?;
    let mut line = Vec::new(alloc);
    line.extend_from_slice(b"youtopia: ")?;
    line.extend_from_slice(&text)?;
    line.push(b'\n')?;
    Ok(line)
}

/// The refusal of an input that spells no session, with the line of its first fault.
pub fn fault_refusal(alloc: Global, fault: &SessionFault) -> Result<Output, Memory>
    ensures refused { IfOk result (λ output. view_of output ≡
        Refused SessionRefused (fault_line (wrong_of fault.now))) }
{
    let line = fault_line(alloc, fault)?;
    Ok(Output::Refused(Refusal::SessionRefused, line))
}

impl<C: SessionCommand> Command for OnSession<C> {
    ghost gives = { λ c. on_session_by (C.makes c.0) };

    fn run(&self, alloc: Global, input: &[u8]) -> Result<Output, Memory> {
        match read_session(alloc, input) {
            Ok(session) => self.0.make(alloc, session),
            Err(ReadFailure::Fault(fault)) => fault_refusal(alloc, &fault),
            Err(ReadFailure::Memory) => Err(Memory),
        }
    }
}

//! Making the file by its first command.
ghost use Rattle.std.specs.Prelude.{IfOk};
ghost use Rattle.ws_session.specs.Written.{IsCreated};

use crate::accepting::{parts_of, stamp_of};
use crate::changing::quit;
use crate::commands::{Turn, read_over};
use crate::leaving::allowed;
use crate::sessions::Session;
use def_memory::Memory;
use std::alloc::Global;
use std::mem;
use ws_command::{Change, Command, Said};
use ws_fault::Refusal;
use ws_log::{Fault, OpenLog, create};
use ws_look::help;
use ws_print::{Text, add_head};
use ws_reply::{Outcome, Reply};
use ws_space::Space;

impl Session {
    /// The reply to a line if there is no file: the line makes the file, asks for help, or gets the fault that there is none.
    pub(crate) fn answer_without(
        &mut self,
        rt: &HostRuntime,
        turn: &Turn<'_>,
    ) -> Result<Option<Reply>, Refusal> {
        let answer = self.first(rt, turn);
        if self.file.resting.is_none() {
            self.forget(rt.alloc());
        }
        answer
    }

    fn first(&mut self, rt: &HostRuntime, turn: &Turn<'_>) -> Result<Option<Reply>, Refusal> {
        let alloc = rt.alloc();
        self.begin(alloc, turn.time)?;
        let Some(space) = &self.space else {
            return Err(Refusal::Memory);
        };
        match read_over(alloc, space, turn.line)? {
            Some(said) => Ok(Some(self.first_said(rt, turn, said)?)),
            None => Ok(None),
        }
    }

    // Begins an empty workspace.
    fn begin(&mut self, alloc: Global, time: &str) -> Result<(), Memory> {
        let stamp = stamp_of(alloc, time, self.speaker.settings.curator.as_str())?;
        let space = Space::fresh(alloc, stamp)?;
        drop(mem::replace(&mut self.space, Some(space)));
        Ok(())
    }

    // The reply to a command if there is no file.
    fn first_said(
        &mut self,
        rt: &HostRuntime,
        turn: &Turn<'_>,
        said: Said,
    ) -> Result<Reply, Refusal> {
        match self.told_without(rt.alloc(), turn.time, &said.command) {
            Ok(None) => self.first_change(rt, turn, said),
            Ok(Some(reply)) => {
                drop(said);
                Ok(reply)
            }
            Err(refusal) => {
                drop(said);
                Err(refusal)
            }
        }
    }

    // The reply to a command that needs no file; None if the command makes the file. Any other is refused, as is one not allowed.
    fn told_without(
        &self,
        alloc: Global,
        time: &str,
        command: &Command,
    ) -> Result<Option<Reply>, Refusal> {
        allowed(alloc, &self.speaker.settings, 0, command)?;
        match command {
            Command::Help(verb) => {
                let context = self.speaker.context(time, false);
                Ok(Some(help(alloc, &context, *verb)?))
            }
            Command::Quit => Ok(Some(quit(alloc))),
            Command::Change { change, .. } if makes_file(change) => Ok(None),
            _ => Err(self.speaker.no_file(alloc)),
        }
    }

    // The reply to the change that makes the file.
    fn first_change(
        &mut self,
        rt: &HostRuntime,
        turn: &Turn<'_>,
        said: Said,
    ) -> Result<Reply, Refusal> {
        let Said { command, comment } = said;
        match command {
            Command::Change { change, .. } => {
                let (log, reply) = self.make(rt, turn, change, comment.as_str())?;
                self.rest(rt.alloc(), log);
                Ok(reply)
            }
            other => {
                drop(other);
                Err(self.speaker.no_file(rt.alloc()))
            }
        }
    }

    // Makes the file with the head and the record of the change, or not at all.
    fn make(
        &mut self,
        rt: &HostRuntime,
        turn: &Turn<'_>,
        change: Change,
        comment: &str,
    ) -> Result<(OpenLog, Reply), Refusal>
        ensures { IfOk result (λ told. IsCreated told.0) }
    {
        match self.keep_head(rt.alloc()) {
            Ok(()) => {
                let outcome = self.first_outcome(rt, turn, change)?;
                self.made(rt, turn.time, outcome, comment)
            }
            Err(memory) => {
                drop(change);
                Err(Refusal::from(memory))
            }
        }
    }

    fn keep_head(&mut self, alloc: Global) -> Result<(), Memory> {
        let Some(space) = &self.space else {
            return Err(Memory);
        };
        self.file.texts.push(head_text(alloc, space)?)?;
        Ok(())
    }

    fn first_outcome(
        &mut self,
        rt: &HostRuntime,
        turn: &Turn<'_>,
        change: Change,
    ) -> Result<Outcome, Refusal> {
        match &mut self.space {
            Some(space) => self.speaker.change(rt, turn, &[], space, change, false),
            None => {
                drop(change);
                Err(Refusal::Memory)
            }
        }
    }

    // Makes the file with the texts that were kept and the record of the change. Nothing may fail after that.
    fn made(
        &mut self,
        rt: &HostRuntime,
        time: &str,
        outcome: Outcome,
        comment: &str,
    ) -> Result<(OpenLog, Reply), Refusal>
        ensures { IfOk result (λ told. IsCreated told.0) }
    {
        let (content, reply) = parts_of(outcome);
        match self.record(rt.alloc(), content, time, comment) {
            Ok(()) => self.create(rt, reply),
            Err(memory) => {
                drop(reply);
                Err(Refusal::from(memory))
            }
        }
    }

    fn create(&self, rt: &HostRuntime, reply: Reply) -> Result<(OpenLog, Reply), Refusal>
        ensures { IfOk result (λ told. IsCreated told.0) }
    {
        let path = self.speaker.settings.path.as_str();
        match created(rt, path, self.file.texts.as_slice()) {
            Ok(log) => Ok((log, reply)),
            Err(fault) => {
                drop(reply);
                Err(self.speaker.log_fault(rt.alloc(), fault))
            }
        }
    }
}

// The log of the first text as its head and the others after it, in a new file.
fn created(rt: &HostRuntime, path: &str, texts: &[Vec<u8>]) -> Result<OpenLog, Fault>
    ensures { IfOk result (λ log. IsCreated log) }
{
    let Some((head, records)) = texts.split_first() else {
        return Err(Fault::Memory);
    };
    let log = create(rt, path, head.as_slice(), records)?;
    Ok(log)
}

fn makes_file(change: &Change) -> bool {
    match change {
        Change::Relation(_) => true,
        Change::Load(load) => load.create,
        _ => false,
    }
}

/// The text of the head of a workspace.
pub(crate) fn head_text(alloc: Global, space: &Space) -> Result<Vec<u8>, Memory> {
    let mut text = Text::new(alloc);
    add_head(&mut text, &space.head(alloc)?);
    let text = text.done()?;
    Ok(text.into_bytes())
}

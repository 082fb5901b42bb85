//! A command: it is read, done over the workspace in memory, and accepted.
ghost use Rattle.std.specs.Prelude.{IfOk};
ghost use Rattle.ws_session.specs.Written.{IsWritten};

use crate::failing::{fault, fault_reply};
use crate::leaving::Done;
use crate::loading::Fed;
use crate::sessions::{Session, Speaker};
use def_memory::Memory;
use std::alloc::Global;
use ws_command::{Said, Verb};
use ws_fault::{Fault, Refusal, Status};
use ws_grammar::{Names, read_command};
use ws_log::{Access, OpenLog};
use ws_reply::Reply;
use ws_space::Space;

/// A line to be done: its time, its number in a script, and the part of standard input that belongs to it.
#[derive(Clone, Copy)]
pub struct Turn<'a> {
    pub line: &'a str,
    pub time: &'a str,
    pub number: Option<u64>,
    pub fed: Option<&'a Fed>,
}

impl Session {
    /// Does a line, and returns its reply; None if the line is blank or a comment.
    pub fn command(&mut self, rt: &HostRuntime, turn: &Turn<'_>) -> Result<Option<Reply>, Memory> {
        if is_blank(turn.line) {
            return Ok(None);
        }
        let alloc = rt.alloc();
        match self.answer(rt, turn) {
            Ok(reply) => Ok(reply),
            Err(Refusal::Fault(fault)) => self.speaker.faulty(alloc, &fault, turn),
            Err(Refusal::Memory) => {
                self.forget(alloc);
                self.speaker.faulty(alloc, &out_of_memory(alloc)?, turn)
            }
        }
    }

    fn answer(&mut self, rt: &HostRuntime, turn: &Turn<'_>) -> Result<Option<Reply>, Refusal> {
        let verb = verb_of(turn.line);
        match self.open(rt, access_of(verb), tells_log(verb))? {
            Some(log) => self.answer_over(rt, turn, log),
            None => self.answer_without(rt, turn),
        }
    }

    // The reply to a line over the workspace in memory, whose log is in hand.
    fn answer_over(
        &mut self,
        rt: &HostRuntime,
        turn: &Turn<'_>,
        log: OpenLog,
    ) -> Result<Option<Reply>, Refusal> {
        match self.done(rt, turn) {
            Ok(done) => self.finish(rt, turn, log, done),
            Err(refusal) => {
                self.rest(rt.alloc(), log);
                Err(refusal)
            }
        }
    }

    // Does the line over the workspace in memory; nothing is written.
    fn done(&mut self, rt: &HostRuntime, turn: &Turn<'_>) -> Result<Done, Refusal> {
        let Some(space) = &mut self.space else {
            return Err(Refusal::Memory);
        };
        match read_over(rt.alloc(), space, turn.line)? {
            Some(said) => {
                let texts = self.file.texts.as_slice();
                self.speaker.command(rt, turn, texts, space, said)
            }
            None => Ok(Done::Nothing),
        }
    }

    // Writes what is to be written, frees the file, and returns the reply. After a fault, nothing that was read is kept.
    fn finish(
        &mut self,
        rt: &HostRuntime,
        turn: &Turn<'_>,
        log: OpenLog,
        done: Done,
    ) -> Result<Option<Reply>, Refusal> {
        match self.written(rt, turn, log, done) {
            Ok((log, reply)) => {
                self.rest(rt.alloc(), log);
                Ok(reply)
            }
            Err(refusal) => {
                self.forget(rt.alloc());
                Err(refusal)
            }
        }
    }

    // Writes what is to be written, and then returns the reply. So no reply to a change is given before a text is appended that
    // lasts.
    fn written(
        &mut self,
        rt: &HostRuntime,
        turn: &Turn<'_>,
        log: OpenLog,
        done: Done,
    ) -> Result<(OpenLog, Option<Reply>), Refusal>
        ensures { IfOk result (λ told. IsWritten done log told.0) }
    {
        match done {
            Done::Nothing => Ok((log, None)),
            Done::Told(reply) => Ok((log, Some(reply))),
            Done::Changed(outcome, comment) => {
                let comment = comment.as_str();
                let (log, reply) = self.accept(rt.alloc(), log, outcome, turn.time, comment)?;
                Ok((log, Some(reply)))
            }
            Done::Folded(head, reply) => {
                let (log, reply) = self.fold(rt, log, head, reply)?;
                Ok((log, Some(reply)))
            }
        }
    }
}

impl Speaker {
    // The reply for a fault.
    fn faulty(
        &self,
        alloc: Global,
        fault: &Fault,
        turn: &Turn<'_>,
    ) -> Result<Option<Reply>, Memory> {
        let form = self.settings.form;
        Ok(Some(fault_reply(alloc, form, fault, turn.line, turn.number)?))
    }
}

/// Reads the command of a line with the names of a workspace; None if the line is blank.
pub(crate) fn read_over(alloc: Global, space: &Space, line: &str) -> Result<Option<Said>, Refusal> {
    let mappings = space.mapping_names(alloc)?;
    let names = Names {
        relations: space.relations.as_slice(),
        mappings: mappings.as_slice(),
    };
    read_command(alloc, &names, line)
}

fn is_blank(line: &str) -> bool {
    let trimmed = line.trim();
    trimmed.is_empty() || trimmed.starts_with('#')
}

// Whether a character ends the first word of a line.
fn ends_word(letter: char) -> bool {
    !letter.is_ascii_alphabetic() && letter != '_'
}

// The verb that is the first word of a line; None if it is no verb.
fn verb_of(line: &str) -> Option<Verb> {
    let rest = line.trim_start();
    let end = rest.find(ends_word);
    Verb::of(rest.get(..end.unwrap_or(rest.len())).unwrap_or(rest))
}

// How the file is locked for a line: for a change if its verb is that of a change, else for reading.
fn access_of(verb: Option<Verb>) -> Access {
    match verb {
        Some(verb) if verb.changes() => Access::Change,
        _ => Access::Read,
    }
}

// Whether the verb prints the log.
fn tells_log(verb: Option<Verb>) -> bool {
    verb == Some(Verb::Log) || verb == Some(Verb::Page)
}

fn out_of_memory(alloc: Global) -> Result<Fault, Memory> {
    Ok(fault(
        alloc,
        Status::NoMemory,
        String::from_str(alloc, "out of memory")?,
        None,
    ))
}

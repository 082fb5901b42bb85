//! The lines of standard input, done one by one.

use crate::commands::Turn;
use crate::failing::{fault_reply, not_utf8};
use crate::loading::Fed;
use crate::sessions::Session;
use crate::shell::feeding::{Input, cannot_read};
use crate::shell::telling::{form_of, tell, tell_fault};
use crate::shell::words::Time;
use def_memory::Memory;
use std::alloc::Global;
use std::io::{self, IsTerminal, Write};
use ws_fault::Status;
use ws_grammar::lines_of;
use ws_reply::{Form, Kind, Reply};
use ws_words::Words;

// A script under way: the form of replies; whether it comes from a terminal; whether it goes on after faults; the number of the
// line, and of the lines after it that belong to it; the first status that would have stopped it; and whether a change waited.
#[derive(Drop)]
struct Script {
    form: Form,
    is_terminal: bool,
    goes_on: bool,
    number: u64,
    following: u64,
    worst: Option<Status>,
    waited: bool,
}

// What follows a line.
#[derive(Clone, Copy)]
enum Next {
    Line,
    End,
    Stop(Status),
}

/// Does the lines of standard input, with a prompt if it is a terminal.
pub(crate) fn run_script(
    rt: &HostRuntime,
    work: &Words,
    time: &Time,
    session: &mut Session,
) -> Result<Status, Memory> {
    let mut script = Script {
        form: form_of(work.json),
        is_terminal: rt.stdin().is_terminal(),
        goes_on: work.keep_going,
        number: 0,
        following: 0,
        worst: None,
        waited: false,
    };
    let mut input = Input::new(rt)?;
    for _ in 0..u64::MAX {
        match script.step(rt, time, session, &mut input)? {
            Next::Line => {}
            Next::End => break,
            Next::Stop(status) => return Ok(status),
        }
    }
    Ok(script.status(rt, session))
}

impl Script {
    // Reads a line with what belongs to it, and does it.
    fn step(
        &mut self,
        rt: &HostRuntime,
        time: &Time,
        session: &mut Session,
        input: &mut Input,
    ) -> Result<Next, Memory> {
        if self.is_terminal {
            let _ = rt.stdout().write_all(b"yt> ");
        }
        let raw = match input.line(rt.alloc()) {
            Ok(raw) => raw,
            Err(error) => return self.unread(rt, &error),
        };
        if raw.is_empty() {
            return Ok(Next::End);
        }
        self.number = self.number.saturating_add(self.following).saturating_add(1);
        self.following = 0;
        let raw = self.without_mark(raw.as_slice());
        match self.fed(rt.alloc(), input, raw)? {
            Ok(fed) => self.done(rt, time, session, raw, fed.as_ref()),
            Err(error) => self.unread(rt, &error),
        }
    }

    // Prints that a line could not be read, and stops.
    fn unread(&self, rt: &HostRuntime, error: &io::Error) -> Result<Next, Memory> {
        let words = cannot_read(rt.alloc(), error)?;
        let hint = String::new(rt.alloc());
        let status = tell_fault(rt, self.form, Status::NoInput, words, hint)?;
        Ok(Next::Stop(status))
    }

    // The line without its line feed; the first line also without a byte order mark.
    fn without_mark<'a>(&self, raw: &'a [u8]) -> &'a [u8] {
        let raw = raw.strip_suffix(b"\n").unwrap_or(raw);
        if self.number == 1 {
            return raw.strip_prefix(b"\xEF\xBB\xBF").unwrap_or(raw);
        }
        raw
    }

    // The following lines that belong to the line.
    fn fed(
        &mut self,
        alloc: Global,
        input: &mut Input,
        raw: &[u8],
    ) -> Result<io::Result<Option<Fed>>, Memory> {
        let text = String::from_utf8_lossy(alloc, raw)?;
        let count = lines_of(text.as_str());
        if count == 0 {
            return Ok(Ok(None));
        }
        match input.lines(alloc, count) {
            Ok(fed) => {
                self.following = fed.lines;
                Ok(Ok(Some(fed)))
            }
            Err(error) => Ok(Err(error)),
        }
    }

    fn done(
        &mut self,
        rt: &HostRuntime,
        time: &Time,
        session: &mut Session,
        raw: &[u8],
        fed: Option<&Fed>,
    ) -> Result<Next, Memory> {
        let now = time.now(rt)?;
        let reply = match str::from_utf8(raw) {
            Ok(line) => session.command(
                rt,
                &Turn {
                    line,
                    time: now.as_str(),
                    number: self.line_number(),
                    fed,
                },
            )?,
            Err(error) => {
                let alloc = rt.alloc();
                let fault = not_utf8(alloc, error.valid_up_to().saturating_add(1))?;
                Some(fault_reply(alloc, self.form, &fault, "", self.line_number())?)
            }
        };
        match reply {
            Some(reply) => self.told(rt, &reply),
            None => Ok(Next::Line),
        }
    }

    // The line's number in faults; None at a terminal.
    fn line_number(&self) -> Option<u64> {
        if self.is_terminal {
            None
        } else {
            Some(self.number)
        }
    }

    // Prints a reply, and goes on or stops.
    fn told(&mut self, rt: &HostRuntime, reply: &Reply) -> Result<Next, Memory> {
        if reply.kind == Kind::Quit {
            return Ok(Next::End);
        }
        let status = tell(rt, self.form, reply);
        if status.stops() && !self.is_terminal {
            if !self.goes_on {
                return Ok(Next::Stop(status));
            }
            self.worst = Some(self.worst.unwrap_or(status));
        } else if status == Status::Waits && reply.kind == Kind::Change {
            self.waited = true;
        }
        Ok(Next::Line)
    }

    // The status of the script after its last line.
    fn status(&self, rt: &HostRuntime, session: &mut Session) -> Status {
        if self.is_terminal {
            return Status::Done;
        }
        if let Some(worst) = self.worst {
            return worst;
        }
        if self.waited && session.waits(rt) {
            return Status::Waits;
        }
        Status::Done
    }
}

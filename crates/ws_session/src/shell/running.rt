//! Doing what the words ask for.

use crate::commands::Turn;
use crate::loading::Fed;
use crate::sessions::{Session, Settings};
use crate::shell::feeding::{Input, fed_by};
use crate::shell::scripts::run_script;
use crate::shell::telling::{
    form_of, tell, tell_fault, tell_no_memory, tell_text, tell_wrong, text,
};
use crate::shell::words::{Time, curator, said_time, words_of};
use def_memory::Memory;
use std::fs;
use ws_command::Verb;
use ws_fault::{Refusal, Status};
use ws_help::{VERSION, help_text};
use ws_reply::Form;
use ws_words::{Asked, Words, file_first, read_words, wants_json};

/// Does what the words of the process ask for, and returns its status. Want of memory is told on standard error.
pub fn run(rt: &HostRuntime) -> Status {
    match run_given(rt) {
        Ok(status) => status,
        Err(_) => tell_no_memory(rt),
    }
}

fn run_given(rt: &HostRuntime) -> Result<Status, Memory> {
    let given = words_of(rt)?;
    let words = given.words.as_slice();
    if let Some(number) = given.unread {
        let what = format!(in rt.alloc(); "word {number} is not UTF-8")?;
        return wrong(rt, words, what, String::new(rt.alloc()));
    }
    let time = said_time(rt)?;
    if let Time::Wrong = time {
        let what = "YT_TIME is no time of the form 2026-11-30T09:00:00Z";
        return wrong(rt, words, text(rt.alloc(), what)?, String::new(rt.alloc()));
    }
    run_words(rt, words, &time)
}

fn run_words(rt: &HostRuntime, words: &[String], time: &Time) -> Result<Status, Memory> {
    match read_words(rt.alloc(), words) {
        Ok(Asked::Help) => tell_text(rt, help_text(rt.alloc(), None)?.as_str()),
        Ok(Asked::Version) => tell_text(rt, VERSION),
        Ok(Asked::Work(work)) => begin(rt, words, &work, time),
        Err(refusal) => wrong_words(rt, words, refusal),
    }
}

fn wrong_words(rt: &HostRuntime, words: &[String], refusal: Refusal) -> Result<Status, Memory> {
    match refusal {
        Refusal::Fault(fault) => tell_wrong(rt, form_of(wants_json(words)), &fault),
        Refusal::Memory => Err(Memory),
    }
}

fn wrong(rt: &HostRuntime, words: &[String], what: String, hint: String) -> Result<Status, Memory> {
    tell_fault(rt, form_of(wants_json(words)), Status::Unread, what, hint)
}

// Begins to work on the file.
fn begin(rt: &HostRuntime, words: &[String], work: &Words, time: &Time) -> Result<Status, Memory> {
    let alloc = rt.alloc();
    let file = work.file.as_str();
    if Verb::of(file).is_some() && !fs::exists(rt, file).unwrap_or(true) {
        return wrong_words(rt, words, Refusal::Fault(file_first(alloc, words, file)?));
    }
    let settings = Settings {
        path: String::from_str(alloc, file)?,
        curator: curator(rt, work)?,
        wait: work.wait,
        form: form_of(work.json),
        no_files: work.no_files,
        stays: work.command.is_none(),
    };
    let mut session = Session::new(alloc, settings)?;
    let status = worked(rt, words, work, time, &mut session);
    drop(session);
    status
}

// Does what the words ask for: the one command, or the lines of standard input.
fn worked(
    rt: &HostRuntime,
    words: &[String],
    work: &Words,
    time: &Time,
    session: &mut Session,
) -> Result<Status, Memory> {
    match &work.command {
        Some(command) => one(rt, words, work, time, session, command.as_str()),
        None => run_script(rt, work, time, session),
    }
}

// Does the one command that the words give.
fn one(
    rt: &HostRuntime,
    words: &[String],
    work: &Words,
    time: &Time,
    session: &mut Session,
    line: &str,
) -> Result<Status, Memory> {
    let alloc = rt.alloc();
    let form = form_of(work.json);
    if line.contains('\n') {
        return wrong(
            rt,
            words,
            text(alloc, "a command is one line")?,
            String::new(alloc),
        );
    }
    let mut input = Input::new(rt)?;
    match fed_by(rt, &mut input, line)? {
        Ok(fed) => done(rt, form, time, session, line, fed.as_ref()),
        Err(what) => tell_fault(rt, form, Status::NoInput, what, String::new(alloc)),
    }
}

// Does the command; `fed` is the part of standard input that belongs to it.
fn done(
    rt: &HostRuntime,
    form: Form,
    time: &Time,
    session: &mut Session,
    line: &str,
    fed: Option<&Fed>,
) -> Result<Status, Memory> {
    let now = time.now(rt)?;
    let turn = Turn {
        line,
        time: now.as_str(),
        number: None,
        fed,
    };
    match session.command(rt, &turn)? {
        Some(reply) => Ok(tell(rt, form, &reply)),
        None => Ok(Status::Done),
    }
}

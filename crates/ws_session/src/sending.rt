//! Texts in a reply or in a file, and a database made of a text.

use crate::failing::{cannot, refused};
use crate::sessions::{Settings, called};
use def_memory::Memory;
use std::alloc::{AllocError, Global};
use std::os::unix::fs::MetadataExt;
use std::{fs, io};
use ws_command::Export;
use ws_fault::{Refusal, Status};
use ws_json::Object;
use ws_out::export_word;
use ws_print::{Lines, Text, add_escaped};
use ws_reply::{Form, Kind, Reply};
use ws_sqlite::write_database;

/// Writes the lines to the file, if there is one, and says so in the reply; else the reply has the lines.
pub(crate) fn sent(
    rt: &HostRuntime,
    settings: &Settings,
    to: &Option<String>,
    kind: &str,
    lines: Vec<String>,
) -> Result<Reply, Refusal> {
    let alloc = rt.alloc();
    match to {
        Some(path) => {
            let text = text_for(rt, settings, path.as_str(), lines.as_slice())?;
            let done = fs::write(rt, path.as_str(), text.as_str());
            wrote(alloc, settings, path.as_str(), done)
        }
        None => Ok(told(alloc, settings.form, kind, lines)?),
    }
}

/// Makes a database of the statements in the file of `--sqlite`, and says so in the reply. Other exports are sent.
pub(crate) fn exported(
    rt: &HostRuntime,
    settings: &Settings,
    asked: &Export,
    lines: Vec<String>,
) -> Result<Reply, Refusal> {
    match &asked.sqlite {
        Some(path) => {
            let text = text_for(rt, settings, path.as_str(), lines.as_slice())?;
            let done = write_database(rt, path.as_str(), text.as_str());
            wrote(rt.alloc(), settings, path.as_str(), done)
        }
        None => sent(rt, settings, &asked.to, export_word(asked), lines),
    }
}

// The text of the lines for the file. It is refused if the file is the workspace.
fn text_for(
    rt: &HostRuntime,
    settings: &Settings,
    path: &str,
    lines: &[String],
) -> Result<String, Refusal> {
    if is_workspace(rt, settings, path) {
        let name = called(settings, path);
        let words = format!(in rt.alloc(); "cannot write {name}: it is the workspace");
        return Err(refused(rt.alloc(), Status::NoOutput, words));
    }
    Ok(joined(rt.alloc(), lines)?)
}

// Whether the path leads to the workspace's file, however it is spelled.
fn is_workspace(rt: &HostRuntime, settings: &Settings, path: &str) -> bool {
    match (
        fs::metadata(rt, settings.path.as_str()),
        fs::metadata(rt, path),
    ) {
        (Ok(ours), Ok(other)) => ours.dev() == other.dev() && ours.ino() == other.ino(),
        _ => false,
    }
}

// The lines as one text, each with a line feed; one line feed if there are no lines.
fn joined(alloc: Global, lines: &[String]) -> Result<String, AllocError> {
    let mut text = Text::new(alloc);
    for (place, line) in lines.iter().enumerate() {
        if 0 < place {
            text.push('\n');
        }
        text.push_str(line.as_str());
    }
    text.push('\n');
    text.done()
}

fn told(alloc: Global, form: Form, kind: &str, lines: Vec<String>) -> Result<Reply, Memory> {
    if form == Form::Text {
        return Ok(Reply::of_text(Status::Done, Kind::Look, lines));
    }
    let text = joined(alloc, lines.as_slice())?;
    Ok(one(alloc, kind, "text", text.as_str())?)
}

// The reply that the file is written, or the refusal with the reason why it is not.
fn wrote(
    alloc: Global,
    settings: &Settings,
    path: &str,
    done: io::Result<()>,
) -> Result<Reply, Refusal> {
    match done {
        Ok(()) => Ok(file_told(alloc, settings.form, path)?),
        Err(error) => {
            let name = called(settings, path);
            Err(cannot(alloc, Status::NoOutput, "write", name, &error))
        }
    }
}

fn file_told(alloc: Global, form: Form, path: &str) -> Result<Reply, Memory> {
    if form == Form::Json {
        return Ok(one(alloc, "wrote", "file", path)?);
    }
    let mut line = Text::from_str(alloc, "wrote ");
    add_escaped(&mut line, path);
    let line = line.done()?;
    let mut lines = Lines::new(alloc);
    lines.push(line);
    Ok(Reply::of_text(Status::Done, Kind::Look, lines.done()?))
}

// The reply with an object of this kind that has one text.
fn one(alloc: Global, kind: &str, key: &str, text: &str) -> Result<Reply, AllocError> {
    let mut object = Object::new(alloc);
    object.text("reply", kind);
    object.text(key, text);
    Reply::of_object(alloc, Status::Done, Kind::Look, object)
}

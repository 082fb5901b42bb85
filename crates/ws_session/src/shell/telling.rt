//! What goes to standard output and standard error.

use crate::failing::fault_reply;
use def_memory::Memory;
use std::alloc::{AllocError, Global};
use std::io::Write;
use ws_fault::{Fault, Status};
use ws_reply::{Form, Kind, Reply};

/// Prints a reply: a fault in text on standard error, all else on standard output. The status is that of the reply, unless it
/// could not be printed.
pub(crate) fn tell(rt: &HostRuntime, form: Form, reply: &Reply) -> Status {
    let is_fault = reply.kind == Kind::Fault && form == Form::Text;
    let lines = reply.lines.as_slice();
    let is_told = match joined(rt.alloc(), lines) {
        Ok(text) => is_written(rt, is_fault, text.as_str()),
        Err(_) => are_written(rt, is_fault, lines),
    };
    if is_told {
        reply.status
    } else {
        Status::NoOutput
    }
}

// The lines as one text, each with a line feed.
fn joined(alloc: Global, lines: &[String]) -> Result<String, AllocError> {
    let mut text = String::new(alloc);
    for line in lines {
        text.push_str(line.as_str())?;
        text.push('\n')?;
    }
    Ok(text)
}

fn is_written(rt: &HostRuntime, is_fault: bool, text: &str) -> bool {
    if is_fault {
        rt.stderr().write_all(text.as_bytes()).is_ok()
    } else {
        rt.stdout().write_all(text.as_bytes()).is_ok()
    }
}

// Writes the lines one by one, without allocating.
fn are_written(rt: &HostRuntime, is_fault: bool, lines: &[String]) -> bool {
    for line in lines {
        let is_whole = is_written(rt, is_fault, line.as_str()) && is_written(rt, is_fault, "\n");
        if !is_whole {
            return false;
        }
    }
    true
}

/// Prints a text on standard output.
pub(crate) fn tell_text(rt: &HostRuntime, text: &str) -> Result<Status, Memory> {
    let mut line = String::from_str(rt.alloc(), text)?;
    if !text.ends_with('\n') {
        line.push('\n')?;
    }
    match rt.stdout().write_all(line.as_bytes()) {
        Ok(()) => Ok(Status::Done),
        Err(_) => Ok(Status::NoOutput),
    }
}

/// Prints a fault of the words, with a hint unless it is empty.
pub(crate) fn tell_fault(
    rt: &HostRuntime,
    form: Form,
    status: Status,
    words: String,
    hint: String,
) -> Result<Status, Memory> {
    let alloc = rt.alloc();
    let fault = Fault {
        status,
        words,
        place: None,
        hint: if hint.is_empty() { None } else { Some(hint) },
        more: Vec::new(alloc),
    };
    tell_wrong(rt, form, &fault)
}

/// Prints a fault of the words.
pub(crate) fn tell_wrong(rt: &HostRuntime, form: Form, fault: &Fault) -> Result<Status, Memory> {
    let reply = fault_reply(rt.alloc(), form, fault, "", None)?;
    Ok(tell(rt, form, &reply))
}

/// Prints that memory ran out.
pub(crate) fn tell_no_memory(rt: &HostRuntime) -> Status {
    let _ = rt.stderr().write_all(b"yt: out of memory\n");
    Status::NoMemory
}

/// The form in which replies are printed.
pub(crate) fn form_of(json: bool) -> Form {
    if json { Form::Json } else { Form::Text }
}

/// The words as a text of its own.
pub(crate) fn text(alloc: Global, words: &str) -> Result<String, AllocError> {
    String::from_str(alloc, words)
}

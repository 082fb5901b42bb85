//! The faults of the file in words, and the replies for faults.

use crate::sessions::Speaker;
use std::alloc::{AllocError, Global};
use std::io::{self, ErrorKind};
use ws_fault::{Fault, Refusal, Status};
use ws_json::{Items, Object};
use ws_log::{Damage, Fault as LogFault, reason};
use ws_print::{Lines, Text, add_escaped, add_fault};
use ws_reply::{Form, Kind, Reply};

/// A fault with these words and without a place.
pub(crate) fn fault(alloc: Global, status: Status, words: String, hint: Option<String>) -> Fault {
    Fault {
        status,
        words,
        place: None,
        hint,
        more: Vec::new(alloc),
    }
}

/// A refusal with these words; want of memory if the words could not be made.
pub(crate) fn refused(alloc: Global, status: Status, words: Result<String, AllocError>) -> Refusal {
    match words {
        Ok(words) => Refusal::Fault(fault(alloc, status, words, None)),
        Err(_) => Refusal::Memory,
    }
}

/// The refusal `cannot read P: REASON`, or with another verb; want of memory if that is the reason.
pub(crate) fn cannot(
    alloc: Global,
    status: Status,
    verb: &str,
    path: &str,
    error: &io::Error,
) -> Refusal {
    if error.kind() == ErrorKind::OutOfMemory {
        return Refusal::Memory;
    }
    match reason(alloc, error) {
        Ok(why) => refused(
            alloc,
            status,
            format!(in alloc; "cannot {verb} {path}: {why}"),
        ),
        Err(_) => Refusal::Memory,
    }
}

impl Speaker {
    /// The fault of a call on the log, in words.
    pub(crate) fn log_fault(&self, alloc: Global, log: LogFault) -> Refusal {
        let name = self.name.as_str();
        match log {
            LogFault::Absent => self.no_file(alloc),
            LogFault::Taken => refused(alloc, Status::Refused, taken(alloc, name)),
            LogFault::Unreadable(error) => cannot(alloc, Status::NoInput, "read", name, &error),
            LogFault::NotLocked(error) => cannot(alloc, Status::NoInput, "lock", name, &error),
            LogFault::InUse => refused(alloc, Status::NoInput, self.in_use(alloc)),
            LogFault::Unwritable(error) => cannot(alloc, Status::NoOutput, "write", name, &error),
            LogFault::Damaged(damage) => {
                refused(alloc, Status::Damaged, damaged(alloc, name, damage))
            }
            LogFault::TooLarge(_) => refused(alloc, Status::NoOutput, too_large(alloc, name)),
            LogFault::Memory => Refusal::Memory,
        }
    }

    fn in_use(&self, alloc: Global) -> Result<String, AllocError> {
        let name = self.name.as_str();
        let seconds = self.settings.wait;
        format!(in alloc; "{name} is in use: waited {seconds} seconds")
    }

    /// The fault that the text at this place is neither a head nor a record.
    pub(crate) fn unread(&self, alloc: Global, place: usize) -> Refusal {
        let name = self.name.as_str();
        let words = format!(in alloc; "{name} is damaged: record {place} cannot be read");
        refused(alloc, Status::Damaged, words)
    }

    /// The refusal that there is no file.
    pub(crate) fn no_file(&self, alloc: Global) -> Refusal {
        match self.absent(alloc) {
            Ok(fault) => Refusal::Fault(fault),
            Err(_) => Refusal::Memory,
        }
    }

    fn absent(&self, alloc: Global) -> Result<Fault, AllocError> {
        let name = self.name.as_str();
        let words = format!(in alloc; "there is no file {name}")?;
        let hint = "its first command makes it: relation NAME(COLUMN, ..)";
        let hint = String::from_str(alloc, hint)?;
        Ok(fault(alloc, Status::Refused, words, Some(hint)))
    }
}

fn taken(alloc: Global, name: &str) -> Result<String, AllocError> {
    format!(in alloc; "somebody has just made {name}; say it again")
}

fn too_large(alloc: Global, name: &str) -> Result<String, AllocError> {
    format!(in alloc; "cannot write {name}: file too large")
}

fn damaged(alloc: Global, name: &str, damage: Damage) -> Result<String, AllocError> {
    match damage {
        Damage::At(place) => format!(in alloc; "{name} is damaged at {place}"),
        Damage::NotAsWritten(number) => {
            format!(in alloc; "{name} is damaged: record {number} is not as it was written")
        }
    }
}

/// The fault that a line is not UTF-8; `number` is its first wrong byte, counted from 1.
pub fn not_utf8(alloc: Global, number: usize) -> Result<Fault, AllocError> {
    let words = format!(in alloc; "the line is not UTF-8, at byte {number} of it")?;
    Ok(fault(alloc, Status::Unread, words, None))
}

/// A fault of a line as a reply; `number` is the line's number in a script. Its words may name a file, whose name may have control
/// characters; these are shown as escapes.
pub fn fault_reply(
    alloc: Global,
    form: Form,
    fault: &Fault,
    line: &str,
    number: Option<u64>,
) -> Result<Reply, AllocError> {
    let shown = escaped_fault(alloc, fault)?;
    if form == Form::Json {
        let object = fault_object(alloc, &shown, number);
        return Reply::of_object(alloc, fault.status, Kind::Fault, object);
    }
    text_reply(alloc, &shown, line, number)
}

// The fault with each control character in its words as an escape.
fn escaped_fault(alloc: Global, fault: &Fault) -> Result<Fault, AllocError> {
    let words = escaped(alloc, fault.words.as_str())?;
    let hint = escaped_hint(alloc, fault)?;
    let more = all_escaped(alloc, fault.more.as_slice())?;
    Ok(Fault {
        status: fault.status,
        words,
        place: fault.place,
        hint,
        more,
    })
}

fn escaped_hint(alloc: Global, fault: &Fault) -> Result<Option<String>, AllocError> {
    match &fault.hint {
        Some(hint) => Ok(Some(escaped(alloc, hint.as_str())?)),
        None => Ok(None),
    }
}

fn all_escaped(alloc: Global, texts: &[String]) -> Result<Vec<String>, AllocError> {
    let mut all = Lines::new(alloc);
    for text in texts {
        all.made(escaped(alloc, text.as_str()));
    }
    all.done()
}

fn escaped(alloc: Global, words: &str) -> Result<String, AllocError> {
    let mut text = Text::new(alloc);
    add_escaped(&mut text, words);
    text.done()
}

fn text_reply(
    alloc: Global,
    fault: &Fault,
    line: &str,
    number: Option<u64>,
) -> Result<Reply, AllocError> {
    let mut text = Text::from_str(alloc, "yt: ");
    add_fault(&mut text, fault, line, number);
    let text = text.done()?;
    let mut lines = Lines::new(alloc);
    for line in text.as_str().split('\n') {
        lines.push_str(line);
    }
    Ok(Reply::of_text(fault.status, Kind::Fault, lines.done()?))
}

fn fault_object(alloc: Global, fault: &Fault, number: Option<u64>) -> Object {
    let mut object = Object::new(alloc);
    object.text("reply", "fault");
    object.text("words", fault.words.as_str());
    if let Some(place) = fault.place {
        object.number("column", count(place.saturating_add(1)));
    }
    if let Some(number) = number {
        object.number("line", i64::try_from(number).unwrap_or(i64::MAX));
    }
    if let Some(hint) = &fault.hint {
        object.text("hint", hint.as_str());
    }
    if !fault.more.is_empty() {
        object.items("faults", items_of(alloc, fault.more.as_slice()));
    }
    object
}

fn count(number: usize) -> i64 {
    i64::try_from(number).unwrap_or(i64::MAX)
}

fn items_of(alloc: Global, texts: &[String]) -> Items {
    let mut items = Items::new(alloc);
    for text in texts {
        items.text(text.as_str());
    }
    items
}

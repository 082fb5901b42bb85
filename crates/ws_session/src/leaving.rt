//! What a command leads to before anything is written, and the commands that are not allowed.
ghost use Rattle.std.specs.Prelude.{◌≡◌, ◌↔◌, [], IsTrue};
ghost use Rattle.ws_session.specs.Written.{IsLedTo};

use crate::failing::refused;
use crate::sessions::Settings;
use std::alloc::Global;
use ws_command::{Change, Command, Export, Look, Source};
use ws_fault::{Refusal, Status};
use ws_reply::{Outcome, Reply};
use ws_written::Line;

/// What a command leads to over the workspace in memory.
#[derive(Drop)]
pub(crate) enum Done {
    /// The line was blank.
    Nothing,
    /// A reply, with nothing to record.
    Told(Reply),
    /// A change that has lines to be recorded, and the comment of its line.
    Changed(Outcome, String),
    /// The text of the head that takes the file's place, and the reply.
    Folded(Vec<u8>, Reply),
}

/// What a change leads to. If it has no lines and names no updates, its reply is all.
pub(crate) fn led_to(outcome: Outcome, comment: String) -> Done
    ensures { IsLedTo outcome result }
{
    if has_none(&outcome.lines) && names_none(&outcome.updates) {
        return Done::Told(outcome.reply);
    }
    Done::Changed(outcome, comment)
}

// Whether there are no lines.
fn has_none(lines: &Vec<Line>) -> bool
    ensures { IsTrue result ↔ (lines.now.items ≡ []) }
{
    lines.is_empty()
}

// Whether there are no numbers of updates.
fn names_none(updates: &Vec<u32>) -> bool
    ensures { IsTrue result ↔ (updates.now.items ≡ []) }
{
    updates.is_empty()
}

/// Refuses a command that reads or writes another file if files are closed, and a command that expects the log at another record
/// than it is at.
pub(crate) fn allowed(
    alloc: Global,
    settings: &Settings,
    at: u32,
    command: &Command,
) -> Result<(), Refusal> {
    if settings.no_files && uses_file(command) {
        let words = String::from_str(alloc, "files are closed");
        return Err(refused(alloc, Status::Refused, words));
    }
    match still_of(command) {
        Some(still) if still != at => {
            let words = format!(in alloc; "the log is at {at}");
            Err(refused(alloc, Status::Refused, words))
        }
        _ => Ok(()),
    }
}

fn still_of(command: &Command) -> Option<u32> {
    match command {
        Command::Change { still, .. } => *still,
        Command::Try { still, .. } => *still,
        _ => None,
    }
}

fn uses_file(command: &Command) -> bool {
    match command {
        Command::Change { change, .. } => reads_file(change),
        Command::Try { change, .. } => reads_file(change),
        Command::Look(look) => writes_file(look),
        _ => false,
    }
}

fn reads_file(change: &Change) -> bool {
    match change {
        Change::Load(load) => match &load.source {
            Source::File(path) => path.as_str() != "-",
            Source::Lines(_) => false,
        },
        _ => false,
    }
}

fn writes_file(look: &Look) -> bool {
    match look {
        Look::Graph(to) => to.is_some(),
        Look::Page(to) => to.is_some(),
        Look::Dump(to) => to.is_some(),
        Look::Export(export) => exports_file(export),
        _ => false,
    }
}

fn exports_file(export: &Export) -> bool {
    export.to.is_some() || export.sqlite.is_some()
}

//! `help`.

use base_types::Memory;
use std::alloc::Global;
use ws_command::Verb;
use ws_fault::Status;
use ws_help::help_text;
use ws_print::Lines;
use ws_reply::{Context, Reply, object_of, seen_object, seen_text};

/// The help page of a command, or of all commands.
pub fn help(alloc: Global, context: &Context<'_>, verb: Option<Verb>) -> Result<Reply, Memory> {
    let text = help_text(alloc, verb)?;
    if context.is_json() {
        let mut object = object_of(alloc, "help");
        object.text("text", text.as_str());
        return seen_object(alloc, Status::Done, object);
    }
    let mut lines = Lines::new(alloc);
    for line in text.as_str().split('\n') {
        lines.push_str(line);
    }
    Ok(seen_text(Status::Done, lines.done()?))
}

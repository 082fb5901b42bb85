//! The command of a line.

use crate::changes::Change;
use crate::looks::Look;
use crate::verbs::Verb;

/// The command that a line gives.
#[derive(Drop)]
pub enum Command {
    /// A change; `still` is the record of `--still`.
    Change { change: Change, still: Option<u32> },
    /// `try`: the change is not made, only its effect is shown; `still` is the record of `--still`.
    Try { change: Change, still: Option<u32> },
    Look(Look),
    Help(Option<Verb>),
    Quit,
}

/// A command, and the comment of its line with control characters escaped. The comment is empty if there is none.
#[derive(Drop)]
pub struct Said {
    pub command: Command,
    pub comment: String,
}

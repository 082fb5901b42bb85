//! The outcome of a change: its reply, and the lines to be recorded.

use crate::replies::Reply;
use ws_written::Line;

/// The outcome of a change that was made in memory. Nothing is to be recorded if it has no line and names no update.
#[derive(Drop)]
pub struct Outcome {
    pub reply: Reply,
    /// The lines of the record, in order.
    pub lines: Vec<Line>,
    /// The numbers of the updates whose lines follow. The workspace has each of them as it was said.
    pub updates: Vec<u32>,
}

//! The outcome of a change.

use crate::reports::Report;
use std::alloc::{AllocError, Global};
use ws_fault::{Refusal, Status};
use ws_written::Line;

/// The report of a change, and the lines to be recorded.
#[derive(Drop)]
pub struct Done {
    pub report: Report,
    pub lines: Vec<Line>,
}

impl Done {
    /// A change with these lines. If they could not be made for want of memory, the change is refused.
    pub fn of(report: Report, lines: Result<Vec<Line>, AllocError>) -> Result<Done, Refusal> {
        match lines {
            Ok(lines) => Ok(Done { report, lines }),
            Err(_) => {
                drop(report);
                Err(Refusal::Memory)
            }
        }
    }

    /// A change without lines to be recorded.
    pub fn unrecorded(alloc: Global, report: Report) -> Done {
        Done {
            report,
            lines: Vec::new(alloc),
        }
    }

    /// A change that changes nothing; `line` says why.
    pub fn nothing(alloc: Global, did: &'static str, line: String) -> Done {
        Done::unrecorded(alloc, Report::of(alloc, Status::Nothing, did, line))
    }
}

/// A change with this one line. If its report could not be made, the change is refused.
pub fn recorded(
    alloc: Global,
    report: Result<Report, Refusal>,
    line: Line,
) -> Result<Done, Refusal> {
    match report {
        Ok(report) => Done::of(report, lines_of(alloc, line, None)),
        Err(refusal) => {
            drop(line);
            Err(refusal)
        }
    }
}

/// The line, and then the other one, if there is one.
pub fn lines_of(alloc: Global, line: Line, other: Option<Line>) -> Result<Vec<Line>, AllocError> {
    let mut lines = Vec::new(alloc);
    if lines.push(line).is_err() {
        drop(other);
        return Err(AllocError);
    }
    add_line(lines, other)
}

/// The lines, and then the other one, if there is one.
pub fn add_line(lines: Vec<Line>, other: Option<Line>) -> Result<Vec<Line>, AllocError> {
    let mut lines = lines;
    match other {
        Some(line) => {
            if lines.push(line).is_err() {
                return Err(AllocError);
            }
            Ok(lines)
        }
        None => Ok(lines),
    }
}

//! A reply as lines.

use std::alloc::{AllocError, Global};
use ws_fault::Status;
use ws_json::Object;

/// The kind of command that a reply answers, as far as the program needs to know it.
#[derive(Clone, Copy, PartialEq, Eq)]
pub enum Kind {
    Change,
    Try,
    Look,
    Fault,
    Quit,
}

/// A reply: its status, and its lines, each without a line feed.
#[derive(Drop)]
pub struct Reply {
    pub status: Status,
    pub kind: Kind,
    pub lines: Vec<String>,
}

impl Reply {
    /// A reply in lines of text.
    pub fn of_text(status: Status, kind: Kind, lines: Vec<String>) -> Reply {
        Reply {
            status,
            kind,
            lines,
        }
    }

    /// A reply of one object, to which the status is added.
    pub fn of_object(
        alloc: Global,
        status: Status,
        kind: Kind,
        object: Object,
    ) -> Result<Reply, AllocError> {
        let line = line_of(object, status, false)?;
        let mut lines = Vec::new(alloc);
        lines.push(line)?;
        Ok(Reply::of_text(status, kind, lines))
    }

    /// A reply of objects, one on each line. The status is added to each, and the mark `more` to each but the last.
    pub fn of_objects(
        alloc: Global,
        status: Status,
        kind: Kind,
        objects: Vec<Object>,
    ) -> Result<Reply, AllocError> {
        let count = objects.len();
        let mut lines = Vec::new(alloc);
        let mut are_all = true;
        for (place, object) in objects.into_iter().enumerate() {
            let more = place.saturating_add(1) < count;
            are_all = add_line(&mut lines, object, status, more).is_ok() && are_all;
        }
        if are_all {
            return Ok(Reply::of_text(status, kind, lines));
        }
        Err(AllocError)
    }
}

fn add_line(
    lines: &mut Vec<String>,
    object: Object,
    status: Status,
    more: bool,
) -> Result<(), AllocError> {
    lines.push(line_of(object, status, more)?)?;
    Ok(())
}

// The line of an object, with the status, and with the mark `more` if other objects follow.
fn line_of(object: Object, status: Status, more: bool) -> Result<String, AllocError> {
    let mut object = object;
    object.number("status", i64::from(status.code()));
    if more {
        object.flag("more", true);
    }
    object.into_line()
}

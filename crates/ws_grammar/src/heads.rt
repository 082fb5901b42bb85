//! The head of a file, line by line.

use crate::bytes::cut_at;
use crate::head_lines::add_line;
use crate::records::readable;
use crate::stamps::stamp_of;
use std::alloc::{AllocError, Global};
use ws_written::{Head, Stamp};

/// Reads a head. None if the text is not one.
pub fn read_head(alloc: Global, text: &[u8]) -> Result<Option<Head>, AllocError> {
    let Ok(text) = str::from_utf8(text) else {
        return Ok(None);
    };
    let Some(rest) = text.strip_prefix("yt 1\ncreated ") else {
        return Ok(None);
    };
    let Some(rest) = rest.strip_suffix("\nend") else {
        return Ok(None);
    };
    let (created, rest) = cut_at(rest, '\n');
    let (last, rest) = cut_at(rest, '\n');
    let Some((last, at)) = last_line(last) else {
        return Ok(None);
    };
    let (time, curator) = cut_at(created, ' ');
    let Some(created) = stamp_of(alloc, time, curator)? else {
        return Ok(None);
    };
    filled_head(alloc, empty_head(alloc, created, last, at), rest)
}

// The head with the content of its lines; None if one of them cannot be read.
fn filled_head(alloc: Global, mut head: Head, lines: &str) -> Result<Option<Head>, AllocError> {
    match read_lines(alloc, &mut head, lines) {
        Ok(true) => Ok(Some(head)),
        Ok(false) => {
            drop(head);
            Ok(None)
        }
        Err(error) => {
            drop(head);
            Err(error)
        }
    }
}

// `last N at R`.
fn last_line(line: &str) -> Option<(u32, u32)> {
    let (last, at) = line.strip_prefix("last ")?.split_once(" at ")?;
    Some((last.parse::<u32>().ok()?, at.parse::<u32>().ok()?))
}

fn empty_head(alloc: Global, created: Stamp, last: u32, at: u32) -> Head {
    Head {
        created,
        last,
        at,
        relations: Vec::new(alloc),
        in_force: Vec::new(alloc),
        proposed: Vec::new(alloc),
        unknowns: Vec::new(alloc),
        base: Vec::new(alloc),
        waiting: Vec::new(alloc),
    }
}

// Adds the lines to the head, and tells whether all of them could be read.
fn read_lines(alloc: Global, head: &mut Head, lines: &str) -> Result<bool, AllocError> {
    if lines.is_empty() {
        return Ok(true);
    }
    for line in lines.split('\n') {
        let Some((word, rest)) = line.split_once(' ') else {
            return Ok(false);
        };
        if readable(add_line(alloc, head, word, rest))?.is_none() {
            return Ok(false);
        }
    }
    Ok(true)
}

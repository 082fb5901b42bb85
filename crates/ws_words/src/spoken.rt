//! The words: options, FILE, and a command.

use crate::joins::joined;
use crate::steps::{Front, Next, step, wrong};
use std::alloc::{AllocError, Global};
use ws_fault::Refusal;
use ws_grammar::is_name;
use ws_help::USAGE;

/// What the words ask for.
#[derive(Drop)]
pub enum Asked {
    Help,
    Version,
    Work(Words),
}

/// The file, the options, and the command, if there is one.
#[derive(Drop)]
pub struct Words {
    /// The name of `--as`.
    pub curator: Option<String>,
    /// The number of seconds to wait for the file if another process has it.
    pub wait: u32,
    pub json: bool,
    pub keep_going: bool,
    pub no_files: bool,
    pub file: String,
    /// The words of the command, joined by blanks.
    pub command: Option<String>,
}

/// Reads the words after the program's name. The error is the first fault from the left.
pub fn read_words(alloc: Global, words: &[String]) -> Result<Asked, Refusal> {
    let mut front = Front::new();
    let mut rest = words;
    for _ in 0..u64::MAX {
        let Some((word, after)) = rest.split_first() else {
            break;
        };
        match step(alloc, &mut front, word.as_str(), after)? {
            Next::Help => return Ok(Asked::Help),
            Next::Version => return Ok(Asked::Version),
            Next::Words(left) => rest = left,
            Next::Command => break,
        }
    }
    work_of(alloc, &front, rest)
}

// The work that the words before the command and the words of the command ask for.
fn work_of(alloc: Global, front: &Front<'_>, command: &[String]) -> Result<Asked, Refusal> {
    let Some(file) = front.file else {
        return wrong(alloc, "a file is missing", USAGE);
    };
    let Some(wait) = seconds_of(front.wait) else {
        return wrong(alloc, "--wait takes a number of seconds, 0 to 9999", "");
    };
    if !is_curator(front.curator) {
        return wrong(alloc, "--as takes a name: letters, digits and _", "");
    }
    Ok(Asked::Work(Words {
        curator: owned(alloc, front.curator)?,
        wait,
        json: front.json,
        keep_going: front.keep_going,
        no_files: front.no_files,
        file: String::from_str(alloc, file)?,
        command: joined(alloc, command)?,
    }))
}

// The seconds of `--wait`, one to four digits; 10 if it is not given.
fn seconds_of(wait: Option<&str>) -> Option<u32> {
    let Some(text) = wait else {
        return Some(10);
    };
    if 4 < text.len() || !text.bytes().all(|b| b.is_ascii_digit()) {
        return None;
    }
    text.parse::<u32>().ok()
}

// Whether the name of `--as` can be a curator's name; true if there is none.
fn is_curator(name: Option<&str>) -> bool {
    match name {
        Some(name) => is_name(name),
        None => true,
    }
}

fn owned(alloc: Global, text: Option<&str>) -> Result<Option<String>, AllocError> {
    match text {
        Some(text) => Ok(Some(String::from_str(alloc, text)?)),
        None => Ok(None),
    }
}

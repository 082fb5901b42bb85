//! How a file is to be read, from the words of `load`.

use crate::refusing::fault;
use std::alloc::{AllocError, Global};
use ws_command::Load;
use ws_fault::{Refusal, Status};
use ws_print::Lines;

/// What an empty cell stands for.
#[derive(Clone, Copy, PartialEq, Eq)]
pub enum Empty {
    /// A fault.
    Refuse,
    /// A new unknown, for each cell.
    New,
    /// The empty text.
    Text,
    /// Its row is skipped.
    Skip,
}

/// How to read a file.
#[derive(Drop)]
pub struct Form {
    pub separator: char,
    pub empty: Empty,
    /// The words that count as an empty cell.
    pub nulls: Vec<String>,
    /// The columns that hold texts alone. An empty name stands for no column.
    pub texts: Vec<String>,
    /// The columns of the file that are taken, in the order of the relation's columns. None means all, by their names.
    pub columns: Option<Vec<String>>,
    /// Whether `?U.P` is an unknown.
    pub unknowns: bool,
}

const SEPARATOR: &str = "the separator is one character, or tab";

const EMPTY: &str =
    "--empty is new (a new unknown), text (the empty text), skip (the row) or refuse";

/// The separator that a word stands for: its only character, or the tab character for `tab`.
pub fn separator_of(word: &str) -> Option<char> {
    if word == "tab" {
        return Some('\t');
    }
    let mut letters = word.chars();
    let letter = letters.next()?;
    if letters.next().is_some() || letter == '"' || letter == '\n' || letter == '\r' {
        return None;
    }
    Some(letter)
}

fn empty_of(word: &str) -> Option<Empty> {
    match word {
        "refuse" => Some(Empty::Refuse),
        "new" => Some(Empty::New),
        "text" => Some(Empty::Text),
        "skip" => Some(Empty::Skip),
        _ => None,
    }
}

// The parts of a word between commas; one empty part if the word is empty.
fn parts_of(alloc: Global, word: &str) -> Result<Vec<String>, AllocError> {
    let mut parts = Lines::new(alloc);
    for part in word.split(',') {
        parts.push_str(part);
    }
    parts.done()
}

// The columns that `--columns` names, if it is given.
fn columns_of(alloc: Global, load: &Load) -> Result<Option<Vec<String>>, AllocError> {
    match &load.columns {
        Some(word) => Ok(Some(parts_of(alloc, word.as_str())?)),
        None => Ok(None),
    }
}

fn word_or<'a>(word: &'a Option<String>, usual: &'a str) -> &'a str {
    match word {
        Some(word) => word.as_str(),
        None => usual,
    }
}

/// Reads the words of `load`. A separator that is not one character, and an unknown word for empty cells, are refused.
pub fn form_of(alloc: Global, load: &Load) -> Result<Form, Refusal> {
    let Some(separator) = separator_of(word_or(&load.separator, ",")) else {
        let words = String::from_str(alloc, SEPARATOR)?;
        return fault(alloc, Status::Unread, words, None);
    };
    let Some(empty) = empty_of(word_or(&load.empty, "refuse")) else {
        let words = String::from_str(alloc, EMPTY)?;
        return fault(alloc, Status::Unread, words, None);
    };
    Ok(Form {
        separator,
        empty,
        nulls: parts_of(alloc, word_or(&load.null, ""))?,
        texts: parts_of(alloc, word_or(&load.text, ""))?,
        columns: columns_of(alloc, load)?,
        unknowns: load.unknowns,
    })
}

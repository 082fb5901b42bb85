//! Texts and lists of lines, written piece by piece.
//!
//! No push returns an error, so that callers need not check each of them. The first want of memory is remembered, and `done`
//! returns it in place of the text.

use std::alloc::{AllocError, Global};
use std::fmt::Display;

/// A text that is being written. `done` returns it, or an error if memory ran out on the way.
#[derive(Drop)]
pub struct Text {
    text: String,
    lacks: bool,
}

impl Text {
    /// An empty text.
    pub fn new(alloc: Global) -> Text {
        Text {
            text: String::new(alloc),
            lacks: false,
        }
    }

    /// A text that begins with `text`.
    pub fn from_str(alloc: Global, text: &str) -> Text {
        let mut out = Text::new(alloc);
        out.push_str(text);
        out
    }

    /// Adds a letter.
    pub fn push(&mut self, letter: char) {
        if self.text.push(letter).is_err() {
            self.lacks = true;
        }
    }

    /// Adds `text`.
    pub fn push_str(&mut self, text: &str) {
        if self.text.push_str(text).is_err() {
            self.lacks = true;
        }
    }

    /// Adds a formatted value, for `write!`.
    pub fn write_fmt<D: Display + Drop>(&mut self, value: D) {
        if self.text.write_fmt(value).is_err() {
            self.lacks = true;
        }
    }

    /// Adds the text of a call; an error counts as want of memory.
    pub fn made<E: Drop>(&mut self, text: Result<String, E>) {
        match text {
            Ok(text) => self.push_str(text.as_str()),
            Err(_) => self.lacks = true,
        }
    }

    /// Whether the text is empty.
    pub fn is_empty(&self) -> bool {
        self.text.is_empty()
    }

    /// The text, if there was memory for all of it.
    pub fn done(self) -> Result<String, AllocError> {
        let Text { text, lacks } = self;
        if lacks {
            return Err(AllocError);
        }
        Ok(text)
    }
}

/// Lines that are being written, each without a line feed. `done` returns them, or an error if memory ran out on the way.
#[derive(Drop)]
pub struct Lines {
    alloc: Global,
    lines: Vec<String>,
    lacks: bool,
}

impl Lines {
    /// An empty list of lines.
    pub fn new(alloc: Global) -> Lines {
        Lines {
            alloc,
            lines: Vec::new(alloc),
            lacks: false,
        }
    }

    /// Adds a line.
    pub fn push(&mut self, line: String) {
        if self.lines.push(line).is_err() {
            self.lacks = true;
        }
    }

    /// Adds a copy of `line`.
    pub fn push_str(&mut self, line: &str) {
        self.made(String::from_str(self.alloc, line));
    }

    /// Adds the line of a call; an error counts as want of memory.
    pub fn made<E: Drop>(&mut self, line: Result<String, E>) {
        match line {
            Ok(line) => self.push(line),
            Err(_) => self.lacks = true,
        }
    }

    /// The number of lines.
    pub fn len(&self) -> usize {
        self.lines.len()
    }

    /// Whether there is no line yet.
    pub fn is_empty(&self) -> bool {
        self.lines.is_empty()
    }

    /// The lines, if there was memory for all of them.
    pub fn done(self) -> Result<Vec<String>, AllocError> {
        let Lines { lines, lacks, .. } = self;
        if lacks {
            return Err(AllocError);
        }
        Ok(lines)
    }
}

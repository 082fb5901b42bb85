//! A place in a line, and the tokens from there on.

use crate::bytes::{after_blanks, name_run, number_run};
use crate::standing::Names;
use std::alloc::Global;
use ws_fault::Refusal;

/// A line over the names that stand, and the rest of it from some place on. After each token the cursor passes over blanks, a
/// comment and a last `;`. `is_strange` says whether it took an unknown one of whose numbers has more than 32 bits.
#[derive(Drop)]
pub(crate) struct Cursor<'a> {
    pub(crate) alloc: Global,
    pub(crate) names: Names<'a>,
    pub(crate) line: &'a [u8],
    pub(crate) rest: &'a [u8],
    pub(crate) comment: &'a [u8],
    pub(crate) is_strange: bool,
}

// Whether only `;` and blanks are left.
fn is_last_semicolon(rest: &[u8]) -> bool {
    match rest {
        [b';', after @ ..] => after_blanks(after).is_empty(),
        _ => false,
    }
}

impl<'a> Cursor<'a> {
    /// A cursor at the beginning of a line, over the names that stand.
    pub(crate) fn over(alloc: Global, names: Names<'a>, line: &'a str) -> Cursor<'a> {
        let bytes = line.as_bytes();
        let mut cursor = Cursor {
            alloc,
            names,
            line: bytes,
            rest: bytes,
            comment: b"",
            is_strange: false,
        };
        cursor.go_on(bytes);
        cursor
    }

    /// Moves on to `rest`, and passes over blanks, a comment and a last `;`.
    pub(crate) fn go_on(&mut self, rest: &'a [u8]) {
        self.rest = after_blanks(rest);
        if let Some(comment) = self.rest.strip_prefix(b"#") {
            self.comment = comment;
            self.rest = b"";
        }
        if is_last_semicolon(self.rest) {
            self.rest = b"";
        }
    }

    /// The place of the cursor, in bytes from the beginning of the line.
    pub(crate) fn at(&self) -> usize {
        self.line.len().saturating_sub(self.rest.len())
    }

    pub(crate) fn is_done(&self) -> bool {
        self.rest.is_empty()
    }

    pub(crate) fn is_sign(&self, sign: &str) -> bool {
        self.rest.starts_with(sign.as_bytes())
    }

    /// Takes `sign`, if it stands here.
    pub(crate) fn take_sign(&mut self, sign: &str) -> bool {
        let Some(rest) = self.rest.strip_prefix(sign.as_bytes()) else {
            return false;
        };
        self.go_on(rest);
        true
    }

    /// Takes `sign`, or refuses the line.
    pub(crate) fn sign(&mut self, sign: &str, expected: &str) -> Result<(), Refusal> {
        if self.take_sign(sign) {
            return Ok(());
        }
        self.fail(expected)
    }

    pub(crate) fn is_name(&self) -> bool {
        name_run(self.rest).is_some()
    }

    /// Whether a name stands here, and a bracket after it.
    pub(crate) fn is_tuple(&self) -> bool {
        match name_run(self.rest) {
            Some((_, rest)) => after_blanks(rest).starts_with(b"("),
            None => false,
        }
    }

    /// Takes the name `word`, if it stands here.
    pub(crate) fn take_word(&mut self, word: &str) -> bool {
        match name_run(self.rest) {
            Some((name, rest)) if name == word => {
                self.go_on(rest);
                true
            }
            _ => false,
        }
    }

    /// Takes the name `word`, or refuses the line.
    pub(crate) fn keyword(&mut self, word: &str) -> Result<(), Refusal> {
        if self.take_word(word) {
            return Ok(());
        }
        self.fail(word)
    }

    /// Takes a name, or refuses the line.
    pub(crate) fn name(&mut self, expected: &str) -> Result<&'a str, Refusal> {
        let Some((name, rest)) = name_run(self.rest) else {
            return self.fail(expected);
        };
        self.go_on(rest);
        Ok(name)
    }

    /// Takes a name, and copies it.
    pub(crate) fn owned_name(&mut self, expected: &str) -> Result<String, Refusal> {
        let name = self.name(expected)?;
        Ok(String::from_str(self.alloc, name)?)
    }

    pub(crate) fn is_number(&self) -> bool {
        number_run(self.rest).is_some()
    }

    /// Refuses the line if it does not end here.
    pub(crate) fn end(&self) -> Result<(), Refusal> {
        if self.is_done() {
            return Ok(());
        }
        self.fail("the end of the line")
    }

    /// Refuses a line of the file if it does not end here, or if one of its unknowns is strange.
    pub(crate) fn end_of_file_line(&self) -> Result<(), Refusal> {
        if self.is_strange {
            return self.fail("an unknown such as ?12.1");
        }
        self.end()
    }
}

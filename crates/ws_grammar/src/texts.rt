//! Texts between quotes, and words.

use crate::bytes::{Kind, cut, run, text_of};
use crate::cursors::Cursor;
use std::alloc::AllocError;
use ws_fault::{Refusal, Status};

/// The greatest number of bytes in a text.
const MOST: usize = 256;

const CLOSE: &str = "it ends with a \" on the same line";

const ESCAPES: &str = "a backslash is followed by one of \" \\ n u{..}";

// The one to six hexadecimal digits of `\u{HEX}`, and the bytes after the closing brace. The bytes begin after the opening one.
fn hex_run(bytes: &[u8]) -> Option<(&str, &[u8])> {
    let (digits, rest) = run(bytes, Kind::HexDigit);
    let rest = rest.strip_prefix(b"}")?;
    if digits.is_empty() || 6 < digits.len() {
        return None;
    }
    Some((text_of(digits), rest))
}

// The character of these hexadecimal digits. None for U+0000.
fn letter_of(digits: &str) -> Option<char> {
    let code = u32::from_str_radix(digits, 16).ok()?;
    if code == 0 {
        return None;
    }
    char::from_u32(code)
}

fn add_letter(bytes: &mut Vec<u8>, letter: char) -> Result<(), AllocError> {
    let mut text = String::new(*bytes.allocator());
    text.push(letter)?;
    bytes.extend_from_slice(text.as_str().as_bytes())
}

impl<'a> Cursor<'a> {
    /// Takes a text between quotes; the opening quote stands here.
    pub(crate) fn text(&mut self) -> Result<String, Refusal> {
        let open = self.at();
        let mut bytes = Vec::new(self.alloc);
        self.pass(1);
        for _ in 0..u64::MAX {
            match self.rest {
                [] => return self.unread(open, "the text is not closed", CLOSE),
                [b'"', ..] => break,
                [b'\\', ..] => self.escape(&mut bytes)?,
                [0, ..] => return self.unread(self.at(), "no such character", ""),
                [byte, ..] => {
                    bytes.push(*byte)?;
                    self.pass(1);
                }
            }
        }
        self.closed_text(open, bytes)
    }

    // Passes over `count` bytes inside a text, where blanks and `#` are part of the text.
    fn pass(&mut self, count: usize) {
        self.rest = cut(self.rest, count).1;
    }

    // Takes the closing quote, and returns the text that was read before it.
    fn closed_text(&mut self, open: usize, bytes: Vec<u8>) -> Result<String, Refusal> {
        let length = bytes.len();
        if MOST < length {
            let words = format!(in self.alloc; "a text has 256 bytes at most, this one {length}");
            return self.refuse(Status::Unread, open, words, Ok(None));
        }
        self.pass(1);
        self.go_on(self.rest);
        match String::from_utf8(bytes) {
            Ok(text) => Ok(text),
            Err(_) => self.unread(open, "the line is not UTF-8", ""),
        }
    }

    // Takes an escape, and adds the bytes that it stands for.
    fn escape(&mut self, bytes: &mut Vec<u8>) -> Result<(), Refusal> {
        let letter = match self.rest {
            [_, b'"', ..] => b'"',
            [_, b'\\', ..] => b'\\',
            [_, b'n', ..] => b'\n',
            [_, b'u', b'{', hex @ ..] => return self.hex_escape(bytes, hex),
            _ => return self.unread(self.at(), ESCAPES, "write \\\\ for a backslash"),
        };
        bytes.push(letter)?;
        self.pass(2);
        Ok(())
    }

    fn hex_escape(&mut self, bytes: &mut Vec<u8>, hex: &'a [u8]) -> Result<(), Refusal> {
        let Some((digits, rest)) = hex_run(hex) else {
            return self.unread(self.at(), ESCAPES, "write \\\\ for a backslash");
        };
        let Some(letter) = letter_of(digits) else {
            return self.unread(self.at(), "no such character", "");
        };
        add_letter(bytes, letter)?;
        self.rest = rest;
        Ok(())
    }

    /// Takes a text between quotes, or a word up to the next blank.
    pub(crate) fn word(&mut self, expected: &str) -> Result<String, Refusal> {
        if self.is_sign("\"") {
            return self.text();
        }
        let (word, rest) = run(self.rest, Kind::Unblank);
        if word.is_empty() {
            return self.fail(expected);
        }
        let word = String::from_str(self.alloc, text_of(word))?;
        self.go_on(rest);
        Ok(word)
    }
}

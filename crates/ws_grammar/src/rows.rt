//! The number of lines of the input that belong to a line.

use crate::bytes::{Kind, after_blanks, is_blank, name_run, option_run, run, text_of};

// The bytes after the text in quotes that begins here. None if there is none or it is not closed.
fn after_text(bytes: &[u8]) -> Option<&[u8]> {
    let mut rest = bytes.strip_prefix(b"\"")?;
    for _ in 0..u64::MAX {
        match rest {
            [] => return None,
            [b'"', after @ ..] => return Some(after),
            [b'\\', _, after @ ..] => rest = after,
            [_, after @ ..] => rest = after,
        }
    }
    None
}

// The bytes after `load` or `try load`.
fn after_load(line: &[u8]) -> Option<&[u8]> {
    let (word, rest) = name_run(after_blanks(line))?;
    if word == "load" {
        return Some(rest);
    }
    if word != "try" || !is_blank(*rest.first()?) {
        return None;
    }
    match name_run(after_blanks(rest))? {
        ("load", rest) => Some(rest),
        _ => None,
    }
}

// The number of `--lines N` at the beginning of the bytes.
fn lines_here(bytes: &[u8]) -> Option<u64> {
    let (name, rest) = option_run(bytes)?;
    let (digits, _) = run(after_blanks(rest), Kind::Digit);
    if name != "lines" || digits.is_empty() {
        return None;
    }
    Some(text_of(digits).parse::<u64>().unwrap_or(u64::MAX))
}

// The bytes after the token here.
fn after_token(bytes: &[u8]) -> &[u8] {
    if let Some(rest) = after_text(bytes) {
        return rest;
    }
    if let Some((_, rest)) = option_run(bytes) {
        return rest;
    }
    run(bytes, Kind::Unblank).1
}

/// The number of lines of the input after this one that belong to it, even if it is refused: N for `load .. --lines N` and
/// `try load .. --lines N`, if the option stands outside texts and comments; otherwise 0.
pub fn lines_of(line: &str) -> u64 {
    let Some(mut rest) = after_load(line.as_bytes()) else {
        return 0;
    };
    if let Some((_, after)) = name_run(after_blanks(rest)) {
        rest = after;
    }
    for _ in 0..u64::MAX {
        rest = after_blanks(rest);
        if rest.is_empty() || rest.starts_with(b"#") {
            return 0;
        }
        if let Some(lines) = lines_here(rest) {
            return lines;
        }
        rest = after_token(rest);
    }
    0
}

//! Kinds of bytes, and the tokens that bytes begin with.

/// A kind of bytes.
#[derive(Clone, Copy)]
pub(crate) enum Kind {
    /// A blank between tokens.
    Blank,
    Unblank,
    Digit,
    HexDigit,
    /// Part of a name: a letter, a digit or `_`.
    Name,
    /// Part of an option's name: a letter or `-`.
    Option,
    /// Anything but a bracket.
    Unbracketed,
}

impl Kind {
    fn has(self, byte: u8) -> bool {
        match self {
            Kind::Blank => is_blank(byte),
            Kind::Unblank => !is_blank(byte),
            Kind::Digit => byte.is_ascii_digit(),
            Kind::HexDigit => byte.is_ascii_hexdigit(),
            Kind::Name => byte.is_ascii_alphanumeric() || byte == b'_',
            Kind::Option => byte.is_ascii_alphabetic() || byte == b'-',
            Kind::Unbracketed => byte != b'(' && byte != b')',
        }
    }
}

/// Whether a byte is a blank between tokens.
pub(crate) fn is_blank(byte: u8) -> bool {
    byte == b' ' || byte == b'\t' || byte == b'\r'
}

/// Whether a character is a blank of any kind; these are cut off around comments.
pub(crate) fn is_white(letter: char) -> bool {
    letter.is_whitespace() || ('\u{1c}' <= letter && letter <= '\u{1f}')
}

/// The bytes before a place, and the bytes from there on. If there are fewer bytes, the second part is empty.
pub(crate) fn cut(bytes: &[u8], place: usize) -> (&[u8], &[u8]) {
    match bytes.split_at_checked(place) {
        Some(parts) => parts,
        None => (bytes, &[]),
    }
}

/// The text before the first `letter`, and the text after it. Without such a letter the second text is empty.
pub(crate) fn cut_at(text: &str, letter: char) -> (&str, &str) {
    text.split_once(letter).unwrap_or((text, ""))
}

/// The bytes as a text; an empty text if they are not UTF-8.
pub(crate) fn text_of(bytes: &[u8]) -> &str {
    str::from_utf8(bytes).unwrap_or("")
}

/// The leading bytes of this kind, and the rest.
pub(crate) fn run(bytes: &[u8], kind: Kind) -> (&[u8], &[u8]) {
    for (place, byte) in bytes.iter().enumerate() {
        if !kind.has(*byte) {
            return cut(bytes, place);
        }
    }
    (bytes, &[])
}

/// The bytes after the leading blanks.
pub(crate) fn after_blanks(bytes: &[u8]) -> &[u8] {
    run(bytes, Kind::Blank).1
}

/// The name at the beginning of the bytes, which begins with a letter or `_`, and the rest.
pub(crate) fn name_run(bytes: &[u8]) -> Option<(&str, &[u8])> {
    let (name, rest) = run(bytes, Kind::Name);
    if name.first()?.is_ascii_digit() {
        return None;
    }
    Some((text_of(name), rest))
}

/// The number at the beginning of the bytes, as it is written, and the rest.
pub(crate) fn number_run(bytes: &[u8]) -> Option<(&str, &[u8])> {
    let after = bytes.strip_prefix(b"-").unwrap_or(bytes);
    let (digits, rest) = run(after, Kind::Digit);
    if digits.is_empty() {
        return None;
    }
    let (number, _) = cut(bytes, bytes.len().saturating_sub(rest.len()));
    Some((text_of(number), rest))
}

/// The two numbers of `?U.P` at the beginning of the bytes, as they are written, and the rest.
pub(crate) fn unknown_run(bytes: &[u8]) -> Option<(&str, &str, &[u8])> {
    let (update, after) = run(bytes.strip_prefix(b"?")?, Kind::Digit);
    let (place, rest) = run(after.strip_prefix(b".")?, Kind::Digit);
    if update.is_empty() || place.is_empty() {
        return None;
    }
    Some((text_of(update), text_of(place), rest))
}

/// The name of the option `--NAME` at the beginning of the bytes, and the rest.
pub(crate) fn option_run(bytes: &[u8]) -> Option<(&str, &[u8])> {
    let (name, rest) = run(bytes.strip_prefix(b"--")?, Kind::Option);
    if name.is_empty() {
        return None;
    }
    Some((text_of(name), rest))
}

//! Tokens: their kinds, where each stands, and why a line has none.
ghost use Rattle.std.specs.Prelude.{◌≡◌};
ghost use Rattle.def_language.specs.declared.tokens.LexRefusal.TheVariants.{Memory};

use std::alloc::{AllocError, AllocFailed};

/// The kinds of tokens.
#[derive(Clone, Copy, Debug, PartialEq, Eq)]
pub enum TokenKind {
    /// A letter of ASCII or `_`, then letters, digits and `_`.
    Name,
    /// A number in the range of `i64`, with an optional `-`. Leading zeros are allowed.
    Number,
    /// A labelled null, `?UPDATE.PLACE`, each part in the range of `u32`.
    Null,
    /// At most 256 bytes between quotes. `\"`, `\\` and `\n` stand for a quote, a backslash and a
    /// line feed.
    Text,
    /// `(`
    Open,
    /// `)`
    Close,
    /// `,`
    Comma,
    /// `:`
    Colon,
    /// `->`
    Arrow,
}

/// A token: its kind, and the places of its first byte and of the byte after its last one.
#[derive(Clone, Copy, Debug, PartialEq, Eq)]
pub struct Token {
    /// The kind.
    pub kind: TokenKind,
    /// The place of its first byte.
    pub from: usize,
    /// The place after its last byte.
    pub to: usize,
}

/// Why a line has no tokens. Each fault carries a place, counted in bytes from 0.
#[derive(Clone, Copy, Debug, PartialEq, Eq)]
pub enum LexRefusal {
    /// A byte that begins no token, or that may not follow a backslash in a text.
    BadByte(usize),
    /// A text that opens at the place, and whose line ends before its closing quote.
    OpenText(usize),
    /// A number outside `i64` or a null with a part outside `u32`, which begins at the place.
    WideNumber(usize),
    /// A text of more than 256 bytes, which opens at the place.
    LongText(usize),
    /// There was not enough memory.
    Memory,
}

impl From<def_memory::Memory> for LexRefusal {
    ghost from_gives = { λ _ refusal. refusal ≡ Memory };

    fn from(_: def_memory::Memory) -> Self {
        LexRefusal::Memory
    }
}

impl From<AllocError> for LexRefusal {
    ghost from_gives = { λ _ refusal. refusal ≡ Memory };

    fn from(_: AllocError) -> Self {
        LexRefusal::Memory
    }
}

impl<T: Drop> From<AllocFailed<T>> for LexRefusal {
    ghost from_gives = { λ _ refusal. refusal ≡ Memory };

    fn from(_: AllocFailed<T>) -> Self {
        LexRefusal::Memory
    }
}

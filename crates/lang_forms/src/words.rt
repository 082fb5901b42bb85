//! The words that tokens say, and the facts and mappings that words make.

ghost use Rattle.std.specs.Prelude.{◌≡◌, true};
ghost use Rattle.def_language.specs.Spelling.{spells, text_of};
ghost use Rattle.def_language.specs.declared.tokens.TokenKind.TheVariants.{Text};

use base_types::{List, Memory, Name, OuterName, ValueList};
use lang_lex::{TokenKind, null_of, number_of, text_of};
use lang_schema::RawAtomList;
use std::alloc::Global;

/// A text as it stands in a line, in its quotes and with its escapes.
#[derive(Clone, Copy)]
pub struct Quoted<'a> {
    spelling: &'a [u8],
    ghost spelled: { spells Text spelling.now ≡ true },
}

/// The word that a token says: a name, a number, the name of a null, a text, or a sign. Names and texts are borrowed from the
/// line.
#[derive(Clone, Copy)]
pub enum Word<'a> {
    Name(&'a [u8]),
    Number(i64),
    Null(OuterName),
    Text(Quoted<'a>),
    Open,
    Close,
    Comma,
    Colon,
    Arrow,
}

/// A fact as it is written: the name of its relation, and its values by column.
#[derive(Debug, Drop)]
pub struct RawFact {
    pub relation: Name,
    pub values: ValueList,
}

/// Facts from left to right.
pub type RawFactList = List<RawFact>;

/// A mapping as it is written: its name, and the atoms of its sides.
#[derive(Debug, Drop)]
pub struct RawMapping {
    pub name: Name,
    pub left: RawAtomList,
    pub right: RawAtomList,
}

impl<'a> Quoted<'a> {
    ghost use Rattle.std.specs.Prelude.{IfOk};
    ghost use Rattle.lang_forms.specs.Views.{says};

    /// The bytes that the text stands for.
    pub fn says(self, alloc: Global) -> Result<base_types::Word, Memory>
        ensures { IfOk result (λ text. text.items ≡ says self.entry) }
    {
        text_of(alloc, self.spelling)
    }
}

impl<'a> Word<'a> {
    ghost use Rattle.lang_forms.specs.Views.{word_of};
    ghost use Rattle.def_language.specs.Words.{said};

    /// The word that a token of this kind and spelling says.
    pub(crate) fn of(kind: TokenKind, spelling: &'a [u8]) -> Word<'a>
        requires { spells kind spelling.now ≡ true }
        ensures { word_of result ≡ said kind spelling.now }
    {
        match kind {
            TokenKind::Name => Word::Name(spelling),
            TokenKind::Number => Word::Number(number_of(spelling)),
            TokenKind::Null => Word::Null(null_of(spelling)),
            TokenKind::Text => Word::Text(Quoted { spelling }),
            TokenKind::Open => Word::Open,
            TokenKind::Close => Word::Close,
            TokenKind::Comma => Word::Comma,
            TokenKind::Colon => Word::Colon,
            TokenKind::Arrow => Word::Arrow,
        }
    }
}

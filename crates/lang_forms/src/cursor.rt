//! A line word by word, with no list of its words.

ghost use Rattle.std.specs.Prelude.{◌≡◌, ◌≤◌, length, true};
ghost use Rattle.def_language.specs.LineTokens.{is_faultless};

use crate::words::Word;
use lang_lex::{LexRefusal, line_fault, next_token};

/// The words of a line that are still to be read, from a place on.
#[derive(Clone, Copy)]
pub struct Words<'a> {
    line: &'a [u8],
    place: usize,
    ghost within: { place ≤ length line.now },
    ghost faultless: { is_faultless place line.now ≡ true },
}

impl<'a> Words<'a> {
    ghost use Rattle.std.specs.Prelude.{◌∷◌, [], Ok, Err, IfErr, IfOk, MatchOption};
    ghost use Rattle.lang_forms.specs.Views.{word_of, words_of};
    ghost use Rattle.def_language.specs.Words.{words_at};
    ghost use Rattle.def_language.specs.LexAnswers.{place_in};

    /// All words of a line. A line with a lexical fault is refused with its leftmost one, which stands in the line or at its end.
    pub fn of(line: &'a [u8]) -> Result<Words<'a>, LexRefusal>
        ensures all { IfOk result (λ words. words_at line.now ≡ Ok (words_of words)) }
        ensures fault { IfErr result (λ refusal. words_at line.now ≡ Err refusal) }
        ensures within { IfErr result (λ refusal. place_in refusal ≤ length line.now) }
    {
        line_fault(line)?;
        Ok(Words { line, place: 0 })
    }

    /// The first word, and the words after it; None if none is left.
    pub fn split_first(self) -> Option<(Word<'a>, Words<'a>)>
        ensures { MatchOption result (words_of self.entry ≡ [])
            (λ x. words_of self.entry ≡ word_of x.0 ∷ words_of x.1) }
    {
        let Some(token) = next_token(self.line, self.place) else {
            return None;
        };
        let word = Word::of(token.kind, &self.line[token.from..token.to]);
        let rest = Words {
            line: self.line,
            place: token.to,
        };
        Some((word, rest))
    }
}

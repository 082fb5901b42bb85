//! The words of a line.

ghost use Rattle.std.specs.Prelude.{◌≡◌, ◌+◌, ◌^◌, ◌<◌, ◌≤◌, ℕ, List as Sequence, Err, length};
ghost use Rattle.lang_forms.specs.Views.{words_of as words_meant};
ghost use Rattle.def_language.specs.Lines.{placed_words};
ghost use Rattle.def_language.specs.Words.{words_at};
ghost use Rattle.def_language.specs.LexAnswers.{place_in};
ghost use Rattle.lang_reader.specs.Answers.{Gives, Refuses};

use crate::faults::{FaultKind, LineRefusal};
use lang_forms::Words;
use lang_lex::LexRefusal;

// The lexical fault of a line that begins at the place, as a refusal of the line.
fn placed(start: usize, refusal: LexRefusal) -> LineRefusal
    requires { start + place_in refusal < 2 ^ 64 }
    ensures { (line : Sequence ℕ) → words_at line ≡ Err refusal →
        Refuses result (placed_words start (words_at line)) }
{
    match refusal {
        LexRefusal::BadByte(place) => LineRefusal::Fault(FaultKind::BadByte(start + place)),
        LexRefusal::OpenText(place) => LineRefusal::Fault(FaultKind::OpenText(start + place)),
        LexRefusal::WideNumber(place) => LineRefusal::Fault(FaultKind::WideNumber(start + place)),
        LexRefusal::LongText(place) => LineRefusal::Fault(FaultKind::LongText(start + place)),
        LexRefusal::Memory => LineRefusal::Memory,
    }
}

/// The words of a line that begins at the place, or its leftmost lexical fault.
pub(crate) fn words_at(start: usize, line: &[u8]) -> Result<Words<'_>, LineRefusal>
    requires { start + length line.now < 2 ^ 64 }
    ensures { Gives words_meant result (placed_words start (words_at line.now)) }
{
    match Words::of(line) {
        Ok(words) => Ok(words),
        Err(refusal) => Err(placed(start, refusal)),
    }
}

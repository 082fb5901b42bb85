//! The lines of a text, which its line feeds separate.

ghost use Rattle.std.specs.Prelude.{◌≡◌, ◌+◌, ◌<◌, ◌≤◌, ◌∷◌, ◌↔◌, IsTrue, MatchOption, length};
ghost use Rattle.std.specs.List.{count_by};
ghost use Rattle.std.specs.Option.{option_copied};
ghost use Rattle.def_language.specs.Lines.{line_number, lines_of};
ghost use Rattle.def_language.specs.Bytes.{is_line_feed};
ghost use Rattle.lang_reader.specs.Places.{IsOneLine};
ghost use Rattle.lang_reader.specs.States.{lines_left};

use memchr::memchr;

/// The first line of a text, and the text after its line feed, if a line feed ends it.
pub(crate) fn first_line(text: &[u8]) -> (&[u8], Option<&[u8]>)
    ensures one_line { IsOneLine result.0.now }
    ensures lines { lines_of text.now ≡ result.0.now ∷ lines_left (option_copied result.1) }
    ensures rest { MatchOption result.1 (length result.0.now ≡
        length text.now) (λ rest. length result.0.now + 1 + length rest.now ≡ length text.now) }
{
    match memchr(b'\n', text) {
        Some(place) => (&text[..place], Some(&text[place + 1..])),
        None => (text, None),
    }
}

/// Whether no line feed stands in a text.
pub(crate) fn is_one_line(text: &[u8]) -> bool
    ensures { IsTrue result ↔ IsOneLine text.now }
{
    memchr(b'\n', text).is_none()
}

/// The number of the line of a place.
pub(crate) fn line_number(bytes: &[u8], place: usize) -> u32
    requires within { place ≤ length bytes.now }
    requires few_lines { count_by is_line_feed bytes.now < 4294967295 }
    ensures { result ≡ line_number bytes.now place }
{
    let mut number = 1;
    for byte in &bytes[..place] {
        if *byte == b'\n' {
            number += 1;
        }
    }
    number
}

//! The parts of an auditor's input: a session, perhaps the result text of a run, and a trace.
ghost use Rattle.std.specs.Prelude.{◌≡◌, ◌<◌, ◌≤◌, ◌∷◌, IfNone, IfSome, Ok, drop, length, take, true};
ghost use Rattle.std.specs.List.{concat};
ghost use Rattle.lang_forms.specs.Views.{words_of};
ghost use Rattle.audit_claims.specs.Marks.{passes};
ghost use Rattle.audit_claims.specs.Parts.{IsResult, after_result, after_session, are_end, bare, before, from, is_end, lines_in, result_in, session_in};

use lang_forms::{Word, Words};
use memchr::memchr;

/// The session at the front of an input, and what follows it. The session ends with the first line that holds `end` and no other
/// token; without such a line it is the whole input.
pub fn session_part(input: &[u8]) -> (&[u8], &[u8])
    ensures session { result.0.now ≡ session_in input.now }
    ensures rest { result.1.now ≡ after_session input.now }
{
    let place = place_of(Mark::End, input);
    if place == input.len() {
        return (input, &[]);
    }
    let end = place + line_end(&input[place..]);
    (&input[..end], &input[end..])
}

/// Splits what follows a session into its result text and the rest; None if its first line is not the first line of a result
/// text. The rest begins with the first line that begins with `trace` and a space.
pub fn result_part(text: &[u8]) -> Option<(&[u8], &[u8])>
    ensures none { IfNone result (IsResult text.now → ⊥) }
    ensures some { IfSome result (λ x. IsResult text.now) }
    ensures result { IfSome result (λ x. x.0.now ≡ result_in text.now) }
    ensures rest { IfSome result (λ x. x.1.now ≡ after_result text.now) }
{
    if bare(text) != b"youtopia result 1".as_slice() {
        return None;
    }
    let place = place_of(Mark::Trace, text);
    Some((&text[..place], &text[place..]))
}

/// Which line is searched for.
#[derive(Clone, Copy)]
enum Mark {
    /// It holds `end` and no other token.
    End,
    /// It begins with `trace` and a space.
    Trace,
}

// The place where the first such line begins, or the text's end if there is none.
fn place_of(mark: Mark, text: &[u8]) -> usize
    ensures within { result ≤ length text.now }
    ensures before { take result text.now ≡ concat (before (passes mark) (lines_in text.now)) }
    ensures from { lines_in (drop result text.now) ≡ from (passes mark) (lines_in text.now) }
{
    let mut place = 0;
    while place < text.len() {
        let end = place + line_end(&text[place..]);
        if passes(mark, &text[place..end]) {
            return place;
        }
        place = end;
    }
    place
}

// The place where the first line ends, after its line feed if it has one.
fn line_end(text: &[u8]) -> usize
    requires some { 0 < length text.now }
    ensures within { result ≤ length text.now }
    ensures some { 0 < result }
    ensures line { lines_in text.now ≡ take result text.now ∷ lines_in (drop result text.now) }
{
    match memchr(b'\n', text) {
        Some(place) => place + 1,
        None => text.len(),
    }
}

// The text before the first line feed.
fn bare(text: &[u8]) -> &[u8]
    ensures bare { result.now ≡ bare text.now }
{
    match memchr(b'\n', text) {
        Some(place) => &text[..place],
        None => text,
    }
}

// Whether the line is the one that the mark searches for.
fn passes(mark: Mark, line: &[u8]) -> bool
    ensures passes { result ≡ passes mark line.now }
{
    match mark {
        Mark::End => is_end(line),
        Mark::Trace => line.starts_with(b"trace "),
    }
}

// Whether the line holds `end` and no other token.
fn is_end(line: &[u8]) -> bool
    ensures end { result ≡ is_end line.now }
{
    match Words::of(bare(line)) {
        Ok(words) => are_end(words),
        Err(_) => false,
    }
}

// Whether the words are `end` alone.
fn are_end(words: Words<'_>) -> bool
    ensures end { result ≡ are_end (Ok (words_of words.entry)) }
{
    let Some((Word::Name(name), rest)) = words.split_first() else {
        return false;
    };
    if rest.split_first().is_some() {
        return false;
    }
    name == b"end".as_slice()
}

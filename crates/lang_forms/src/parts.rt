//! The parts of statements, read from the left.

ghost use Rattle.std.specs.Prelude.{◌≡◌, ◌<◌, ◌≤◌, IfOk, length, map};
ghost use Rattle.base_types.specs.Meanings.{datum_of};
ghost use Rattle.def_language.specs.declared.Wanted.TheVariants as missing;
ghost use Rattle.def_language.specs.Parts.{atom_at, colon_at, end_at, fact_at, item_at, name_at, open_at, term_of, value_of};
ghost use Rattle.def_language.specs.Reading.{many};
ghost use Rattle.lang_schema.specs.Meanings.{atom_of as atom_meant, term_of as term_meant};
ghost use Rattle.lang_forms.specs.Views.{Gives, fact_of as fact_meant, word_of, words_of};

use crate::cursor::Words;
use crate::faults::{FormRefusal, wants};
use crate::words::{RawFact, Word};
use base_types::{List, Memory, Name, Value, ValueList};
use def_language::Wanted;
use lang_schema::{RawAtom, RawTerm, RawTermList};
use std::alloc::Global;

// A copy of the bytes as a name.
fn copied(alloc: Global, bytes: &[u8]) -> Result<Name, Memory>
    ensures { IfOk result (λ name. name.items ≡ bytes.now) }
{
    Ok(List::from_vec(Vec::from_slice(alloc, bytes)?))
}

/// A name, and the words after it.
#[tactic(auto, unfolding(def_language::specs::Parts::name_at))]
pub fn name_at(alloc: Global, words: Words<'_>) -> Result<(Name, Words<'_>), FormRefusal>
    ensures gives { Gives (λ x. (x.0.items, words_of x.1)) result (name_at (words_of words.entry)) }
    ensures shorter { IfOk result (λ x. length (words_of x.1) < length (words_of words.entry)) }
{
    match words.split_first() {
        Some((Word::Name(name), rest)) => Ok((copied(alloc, name)?, rest)),
        _ => Err(wants(Wanted::Name)),
    }
}

/// The words after `(`, which must come first.
#[tactic(auto, unfolding(def_language::specs::Parts::open_at))]
pub fn open_at(words: Words<'_>) -> Result<Words<'_>, FormRefusal>
    ensures gives { Gives (λ x. words_of x) result (open_at (words_of words.entry)) }
    ensures shorter { IfOk result (λ x. length (words_of x) < length (words_of words.entry)) }
{
    match words.split_first() {
        Some((Word::Open, rest)) => Ok(rest),
        _ => Err(wants(Wanted::Open)),
    }
}

/// The words after `:`, which must come first.
#[tactic(auto, unfolding(def_language::specs::Parts::colon_at))]
pub fn colon_at(words: Words<'_>) -> Result<Words<'_>, FormRefusal>
    ensures gives { Gives (λ x. words_of x) result (colon_at (words_of words.entry)) }
    ensures shorter { IfOk result (λ x. length (words_of x) < length (words_of words.entry)) }
{
    match words.split_first() {
        Some((Word::Colon, rest)) => Ok(rest),
        _ => Err(wants(Wanted::Colon)),
    }
}

/// Checks that no word is left.
#[tactic(auto, unfolding(def_language::specs::Parts::end_at))]
pub(crate) fn end_at(words: Words<'_>) -> Result<(), FormRefusal>
    ensures gives { Gives (λ u. u) result (end_at (words_of words.entry)) }
{
    match words.split_first() {
        None => Ok(()),
        Some(_) => Err(wants(Wanted::EndOfLine)),
    }
}

/// The value that the word says.
pub(crate) fn value_of(alloc: Global, word: Word<'_>) -> Result<Value, FormRefusal>
    ensures gives { Gives datum_of result (value_of (word_of word.entry)) }
{
    match word {
        Word::Number(number) => Ok(Value::Int(number)),
        Word::Text(text) => Ok(Value::Word(text.says(alloc)?)),
        Word::Null(name) => Ok(Value::Null(name.null())),
        _ => Err(wants(Wanted::Value)),
    }
}

// The term that the word says.
fn term_of(alloc: Global, word: Word<'_>) -> Result<RawTerm, FormRefusal>
    ensures gives { Gives term_meant result (term_of (word_of word.entry)) }
{
    match word {
        Word::Name(name) => Ok(RawTerm::Var(copied(alloc, name)?)),
        Word::Number(number) => Ok(RawTerm::Const(Value::Int(number))),
        Word::Text(text) => Ok(RawTerm::Const(Value::Word(text.says(alloc)?))),
        _ => Err(wants(Wanted::Term)),
    }
}

// A value, whether a comma follows it, and the words after the comma or the parenthesis.
#[tactic(auto, unfolding(def_language::specs::Parts::item_at))]
fn value_at(alloc: Global, words: Words<'_>) -> Result<(Value, bool, Words<'_>), FormRefusal>
    ensures gives { Gives (λ x. (datum_of x.0, x.1, words_of x.2)) result
        (item_at missing.Value value_of (words_of words.entry)) }
    ensures shorter { IfOk result (λ x. length (words_of x.2) < length (words_of words.entry)) }
{
    let Some((word, others)) = words.split_first() else {
        return Err(wants(Wanted::Value));
    };
    let value = value_of(alloc, word)?;
    match others.split_first() {
        Some((Word::Comma, rest)) => Ok((value, true, rest)),
        Some((Word::Close, rest)) => Ok((value, false, rest)),
        _ => Err(wants(Wanted::CommaOrClose)),
    }
}

// A term, whether a comma follows it, and the words after the comma or the parenthesis.
#[tactic(auto, unfolding(def_language::specs::Parts::item_at))]
fn term_at(alloc: Global, words: Words<'_>) -> Result<(RawTerm, bool, Words<'_>), FormRefusal>
    ensures gives { Gives (λ x. (term_meant x.0, x.1, words_of x.2)) result
        (item_at missing.Term term_of (words_of words.entry)) }
    ensures shorter { IfOk result (λ x. length (words_of x.2) < length (words_of words.entry)) }
{
    let Some((word, others)) = words.split_first() else {
        return Err(wants(Wanted::Term));
    };
    let term = term_of(alloc, word)?;
    match others.split_first() {
        Some((Word::Comma, rest)) => Ok((term, true, rest)),
        Some((Word::Close, rest)) => Ok((term, false, rest)),
        _ => Err(wants(Wanted::CommaOrClose)),
    }
}

fn values_at(alloc: Global, words: Words<'_>) -> Result<(ValueList, Words<'_>), FormRefusal>
    ensures gives { Gives (λ x. (map datum_of x.0.items, words_of x.1)) result
        (many (length (words_of words.entry)) (item_at missing.Value value_of)
        (words_of words.entry)) }
    ensures shorter { IfOk result (λ x. length (words_of x.1) ≤ length (words_of words.entry)) }
{
    let mut found = List::new(alloc);
    let mut rest = words;
    'items: loop {
        let (item, more, after) = value_at(alloc, rest)?;
        found.push(item)?;
        if !more {
            return Ok((found, after));
        }
        rest = after;
    }
}

fn terms_at(alloc: Global, words: Words<'_>) -> Result<(RawTermList, Words<'_>), FormRefusal>
    ensures gives { Gives (λ x. (map term_meant x.0.items, words_of x.1)) result
        (many (length (words_of words.entry)) (item_at missing.Term term_of)
        (words_of words.entry)) }
    ensures shorter { IfOk result (λ x. length (words_of x.1) ≤ length (words_of words.entry)) }
{
    let mut found = List::new(alloc);
    let mut rest = words;
    'items: loop {
        let (item, more, after) = term_at(alloc, rest)?;
        found.push(item)?;
        if !more {
            return Ok((found, after));
        }
        rest = after;
    }
}

/// A fact, and the words after it.
#[tactic(auto, unfolding(def_language::specs::Parts::fact_at, def_language::specs::Parts::items_at))]
pub(crate) fn fact_at(alloc: Global, words: Words<'_>) -> Result<(RawFact, Words<'_>), FormRefusal>
    ensures gives { Gives (λ x. (fact_meant x.0, words_of x.1)) result
        (fact_at (words_of words.entry)) }
    ensures shorter { IfOk result (λ x. length (words_of x.1) < length (words_of words.entry)) }
{
    let (relation, rest) = name_at(alloc, words)?;
    let inside = open_at(rest)?;
    let (values, after) = values_at(alloc, inside)?;
    Ok((RawFact { relation, values }, after))
}

/// An atom, and the words after it.
#[tactic(auto, unfolding(def_language::specs::Parts::atom_at, def_language::specs::Parts::items_at))]
pub(crate) fn atom_at(alloc: Global, words: Words<'_>) -> Result<(RawAtom, Words<'_>), FormRefusal>
    ensures gives { Gives (λ x. (atom_meant x.0, words_of x.1)) result
        (atom_at (words_of words.entry)) }
    ensures shorter { IfOk result (λ x. length (words_of x.1) < length (words_of words.entry)) }
{
    let (relation, rest) = name_at(alloc, words)?;
    let inside = open_at(rest)?;
    let (terms, after) = terms_at(alloc, inside)?;
    Ok((RawAtom { relation, terms }, after))
}

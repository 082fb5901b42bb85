//! Mappings and lists of facts, read from the left.

ghost use Rattle.std.specs.Prelude.{◌<◌, ◌≤◌, IfOk, length, map};
ghost use Rattle.def_language.specs.Reading.{many};
ghost use Rattle.def_language.specs.Parts.{facts_at, last_fact, left_at, left_atom, mapping_at, right_at, right_atom};
ghost use Rattle.lang_schema.specs.Meanings.{atom_of as atom_meant};
ghost use Rattle.lang_forms.specs.Views.{Gives, fact_of as fact_meant, mapping_of as mapping_meant, words_of};

use crate::cursor::Words;
use crate::faults::{FormRefusal, wants};
use crate::parts::{atom_at, colon_at, fact_at, name_at};
use crate::words::{RawFact, RawFactList, RawMapping, Word};
use base_types::List;
use def_language::Wanted;
use lang_schema::{RawAtom, RawAtomList};
use std::alloc::Global;

// An atom of the left side, whether a comma follows it, and the words after the comma or the arrow.
#[tactic(auto, unfolding(def_language::specs::Parts::left_atom))]
fn left_atom(alloc: Global, words: Words<'_>) -> Result<(RawAtom, bool, Words<'_>), FormRefusal>
    ensures gives { Gives (λ x. (atom_meant x.0, x.1, words_of x.2)) result
        (left_atom (words_of words.entry)) }
    ensures shorter { IfOk result (λ x. length (words_of x.2) < length (words_of words.entry)) }
{
    let (atom, others) = atom_at(alloc, words)?;
    match others.split_first() {
        Some((Word::Comma, rest)) => Ok((atom, true, rest)),
        Some((Word::Arrow, rest)) => Ok((atom, false, rest)),
        _ => Err(wants(Wanted::CommaOrArrow)),
    }
}

// An atom of the right side, whether a comma follows it, and the words after the comma.
#[tactic(auto, unfolding(def_language::specs::Parts::right_atom))]
fn right_atom(alloc: Global, words: Words<'_>) -> Result<(RawAtom, bool, Words<'_>), FormRefusal>
    ensures gives { Gives (λ x. (atom_meant x.0, x.1, words_of x.2)) result
        (right_atom (words_of words.entry)) }
    ensures shorter { IfOk result (λ x. length (words_of x.2) < length (words_of words.entry)) }
{
    let (atom, others) = atom_at(alloc, words)?;
    match others.split_first() {
        None => Ok((atom, false, others)),
        Some((Word::Comma, rest)) => Ok((atom, true, rest)),
        _ => Err(wants(Wanted::CommaOrEnd)),
    }
}

// A fact of an answer, whether a comma follows it, and the words after the comma.
#[tactic(auto, unfolding(def_language::specs::Parts::last_fact))]
fn last_fact(alloc: Global, words: Words<'_>) -> Result<(RawFact, bool, Words<'_>), FormRefusal>
    ensures gives { Gives (λ x. (fact_meant x.0, x.1, words_of x.2)) result
        (last_fact (words_of words.entry)) }
    ensures shorter { IfOk result (λ x. length (words_of x.2) < length (words_of words.entry)) }
{
    let (fact, others) = fact_at(alloc, words)?;
    match others.split_first() {
        None => Ok((fact, false, others)),
        Some((Word::Comma, rest)) => Ok((fact, true, rest)),
        _ => Err(wants(Wanted::CommaOrEnd)),
    }
}

fn left_atoms(alloc: Global, words: Words<'_>) -> Result<(RawAtomList, Words<'_>), FormRefusal>
    ensures gives { Gives (λ x. (map atom_meant x.0.items, words_of x.1)) result
        (many (length (words_of words.entry)) left_atom (words_of words.entry)) }
    ensures shorter { IfOk result (λ x. length (words_of x.1) ≤ length (words_of words.entry)) }
{
    let mut found = List::new(alloc);
    let mut rest = words;
    'items: loop {
        let (item, more, after) = left_atom(alloc, rest)?;
        found.push(item)?;
        if !more {
            return Ok((found, after));
        }
        rest = after;
    }
}

fn right_atoms(alloc: Global, words: Words<'_>) -> Result<(RawAtomList, Words<'_>), FormRefusal>
    ensures gives { Gives (λ x. (map atom_meant x.0.items, words_of x.1)) result
        (many (length (words_of words.entry)) right_atom (words_of words.entry)) }
    ensures shorter { IfOk result (λ x. length (words_of x.1) ≤ length (words_of words.entry)) }
{
    let mut found = List::new(alloc);
    let mut rest = words;
    'items: loop {
        let (item, more, after) = right_atom(alloc, rest)?;
        found.push(item)?;
        if !more {
            return Ok((found, after));
        }
        rest = after;
    }
}

fn last_facts(alloc: Global, words: Words<'_>) -> Result<(RawFactList, Words<'_>), FormRefusal>
    ensures gives { Gives (λ x. (map fact_meant x.0.items, words_of x.1)) result
        (many (length (words_of words.entry)) last_fact (words_of words.entry)) }
    ensures shorter { IfOk result (λ x. length (words_of x.1) ≤ length (words_of words.entry)) }
{
    let mut found = List::new(alloc);
    let mut rest = words;
    'items: loop {
        let (item, more, after) = last_fact(alloc, rest)?;
        found.push(item)?;
        if !more {
            return Ok((found, after));
        }
        rest = after;
    }
}

// The atoms of the left side, and the words after the arrow.
#[tactic(auto, unfolding(def_language::specs::Parts::left_at))]
fn left_at(alloc: Global, words: Words<'_>) -> Result<(RawAtomList, Words<'_>), FormRefusal>
    ensures gives { Gives (λ x. (map atom_meant x.0.items, words_of x.1)) result
        (left_at (words_of words.entry)) }
{
    match words.split_first() {
        Some((Word::Arrow, rest)) => Ok((List::new(alloc), rest)),
        Some((Word::Name(_), _)) => left_atoms(alloc, words),
        _ => Err(wants(Wanted::NameOrArrow)),
    }
}

/// The atoms of a right side or of a query's body, to the end of the line.
#[tactic(auto, unfolding(def_language::specs::Parts::right_at))]
pub fn right_at(alloc: Global, words: Words<'_>) -> Result<RawAtomList, FormRefusal>
    ensures gives { Gives (λ x. map atom_meant x.items) result (right_at (words_of words.entry)) }
{
    match words.split_first() {
        None => Ok(List::new(alloc)),
        Some((Word::Name(_), _)) => {
            let (found, _rest) = right_atoms(alloc, words)?;
            Ok(found)
        }
        _ => Err(wants(Wanted::NameOrEnd)),
    }
}

/// A mapping after the word `mapping`, to the end of the line.
#[tactic(auto, unfolding(def_language::specs::Parts::mapping_at))]
pub(crate) fn mapping_at(alloc: Global, words: Words<'_>) -> Result<RawMapping, FormRefusal>
    ensures gives { Gives mapping_meant result (mapping_at (words_of words.entry)) }
{
    let (name, rest) = name_at(alloc, words)?;
    let rest = colon_at(rest)?;
    let (left, rest) = left_at(alloc, rest)?;
    let right = right_at(alloc, rest)?;
    Ok(RawMapping { name, left, right })
}

/// The facts of an answer, to the end of the line.
#[tactic(auto, unfolding(def_language::specs::Parts::facts_at))]
pub(crate) fn facts_at(alloc: Global, words: Words<'_>) -> Result<RawFactList, FormRefusal>
    ensures gives { Gives (λ x. map fact_meant x.items) result (facts_at (words_of words.entry)) }
{
    let (found, _rest) = last_facts(alloc, words)?;
    Ok(found)
}

//! Queries from the texts that spell them.

ghost use Rattle.std.specs.Prelude.{◌≡◌, ◌<◌, ◌≤◌, ◌↔◌, All, IfNone, IfOk, IfSome, IsTrue, Ok, false, length, map};
ghost use Rattle.std.specs.List.{list_all};
ghost use Rattle.def_language.specs.Bytes.{is_line_feed};
ghost use Rattle.lang_forms.specs.Views.{Gives, words_of};
ghost use Rattle.lang_schema.specs.Meanings.{atom_of, term_of};
ghost use Rattle.run_ask.specs.Bound.{names_of, written_of};
ghost use Rattle.run_ask.specs.Written.{SpellsAsk, WrittenAsk, ask_at, head_at, head_name, is_ask, is_few, is_variable, stands_in, stands_in_atom};

use crate::queries::RawAsk;
use base_types::{List, Memory, Name, NameList};
use lang_forms::{FormRefusal, Wanted, Word, Words, colon_at, name_at, open_at, right_at};
use lang_lex::utf8_end;
use lang_schema::{RawAtom, RawTerm};
use memchr::memchr;
use std::alloc::Global;

// A name of the head, whether a comma follows it, and the words after that comma or after the parenthesis.
#[tactic(auto, unfolding(crate::specs::Written::head_name))]
fn head_name(alloc: Global, words: Words<'_>) -> Result<(Name, bool, Words<'_>), FormRefusal>
    ensures gives { Gives (λ x. (x.0.items, x.1, words_of x.2)) result
        (head_name (words_of words.entry)) }
    ensures shorter { IfOk result (λ x. length (words_of x.2) < length (words_of words.entry)) }
{
    let (name, others) = name_at(alloc, words)?;
    match others.split_first() {
        Some((Word::Comma, rest)) => Ok((name, true, rest)),
        Some((Word::Close, rest)) => Ok((name, false, rest)),
        _ => Err(FormRefusal::Expected(Wanted::CommaOrClose)),
    }
}

#[tactic(auto, unfolding(crate::specs::Written::head_at))]
fn head_at(alloc: Global, words: Words<'_>) -> Result<(NameList, Words<'_>), FormRefusal>
    ensures gives { Gives (λ x. (names_of x.0.items, words_of x.1)) result
        (head_at (words_of words.entry)) }
{
    let mut found = List::new(alloc);
    let mut rest = words;
    'items: loop {
        let (item, more, after) = head_name(alloc, rest)?;
        found.push(item)?;
        if !more {
            return Ok((found, after));
        }
        rest = after;
    }
}

// The query that the words of a line spell.
#[tactic(auto, unfolding(crate::specs::Written::ask_at))]
fn ask_at(alloc: Global, words: Words<'_>) -> Result<RawAsk, FormRefusal>
    ensures { Gives written_of result (ask_at (words_of words.entry)) }
{
    let (_called, rest) = name_at(alloc, words)?;
    let inside = open_at(rest)?;
    let (head, rest) = head_at(alloc, inside)?;
    let after = colon_at(rest)?;
    let body = right_at(alloc, after)?;
    Ok(RawAsk { head, body })
}

// Whether the number is from 1 to 8.
fn is_few(count: usize) -> bool
    ensures { result ≡ is_few count }
{
    1 <= count && count <= 8
}

// Whether the term is the variable of the name.
fn is_variable(name: &Name, term: &RawTerm) -> bool
    ensures { result ≡ is_variable name.now.items (term_of term.now) }
{
    match term {
        RawTerm::Var(other) => name.as_slice() == other.as_slice(),
        RawTerm::Const(_value) => false,
    }
}

// Whether the variable of the name stands in the atom.
fn stands_in_atom(name: &Name, atom: &RawAtom) -> bool
    ensures { result ≡ stands_in_atom name.now.items (atom_of atom.now) }
{
    for term in atom.terms.as_slice() {
        if is_variable(name, term) {
            return true;
        }
    }
    false
}

// Whether the variable of the name stands in one of the atoms.
fn stands_in(name: &Name, atoms: &[RawAtom]) -> bool
    ensures { result ≡ stands_in (map atom_of atoms.now) name.now.items }
{
    for atom in atoms {
        if stands_in_atom(name, atom) {
            return true;
        }
    }
    false
}

// Whether the variables of all names stand in the atoms.
fn all_stand_in(names: &[Name], atoms: &[RawAtom]) -> bool
    ensures { result ≡ list_all (stands_in (map atom_of atoms.now)) (names_of names.now) }
{
    for name in names {
        if !stands_in(name, atoms) {
            return false;
        }
    }
    true
}

// Whether there are 1 to 8 names of variables that stand in the body, and 1 to 8 atoms.
fn is_ask(raw: &RawAsk) -> bool
    ensures { result ≡ is_ask (written_of raw.now) }
{
    if !is_few(raw.head.len()) {
        return false;
    }
    if !is_few(raw.body.len()) {
        return false;
    }
    all_stand_in(raw.head.as_slice(), raw.body.as_slice())
}

// Whether no line feed stands in the text.
fn is_one_line(text: &[u8]) -> bool
    ensures { IsTrue result ↔ All (λ b. is_line_feed b ≡ false) text.now }
{
    memchr(b'\n', text).is_none()
}

// The words of a line as a query, whether or not it keeps the limits of one.
fn read_ask(alloc: Global, words: Words<'_>) -> Result<Option<RawAsk>, Memory>
    ensures some { IfOk result
        (λ found. IfSome found (λ raw. ask_at (words_of words.entry) ≡ Ok (written_of raw))) }
    ensures none { IfOk result
        (λ found. IfNone found ((q : WrittenAsk) → ask_at (words_of words.entry) ≡ Ok q → ⊥)) }
{
    match ask_at(alloc, words) {
        Ok(raw) => Ok(Some(raw)),
        Err(FormRefusal::Memory) => Err(Memory),
        Err(_) => Ok(None),
    }
}

/// The query that a text spells: the names of its head, and the atoms of its body; None exactly if the text spells none. Blanks
/// and a comment may stand around the query, and no line feed anywhere. A query has 1 to 8 atoms, and 1 to 8 names in its head,
/// each of them a variable of the body.
pub fn parse_ask(alloc: Global, text: &[u8]) -> Result<Option<RawAsk>, Memory>
    ensures some { IfOk result
        (λ found. IfSome found (λ raw. SpellsAsk text.now (written_of raw))) }
    ensures none { IfOk result
        (λ found. IfNone found ((q : WrittenAsk) → SpellsAsk text.now q → ⊥)) }
{
    if utf8_end(text).is_some() {
        return Ok(None);
    }
    if !is_one_line(text) {
        return Ok(None);
    }
    let Ok(words) = Words::of(text) else {
        return Ok(None);
    };
    let Some(raw) = read_ask(alloc, words)? else {
        return Ok(None);
    };
    if !is_ask(&raw) {
        return Ok(None);
    }
    Ok(Some(raw))
}

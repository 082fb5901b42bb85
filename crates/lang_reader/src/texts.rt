//! The texts of faults.

ghost use Rattle.std.specs.Prelude.{◌≡◌, ◌++◌, OnOk, IfOk};
ghost use Rattle.std.specs.Fmt.{decimal};
ghost use Rattle.def_language.specs.Faults.{Arity, NullNotBelow, kind_text, number_of, wanted_text, which_text, wrong_text};
ghost use Rattle.lang_reader.specs.Answers.{kind_of, wrong_of};

use crate::faults::{FaultKind, SessionFault};
use base_types::{Memory, Name, OuterName};
use def_language::{Wanted, Which};
use std::alloc::{AllocError, Global};

fn number_of(kind: &FaultKind) -> u8
    ensures { result ≡ number_of (kind_of kind.now) }
{
    match kind {
        FaultKind::UnknownRelation(_) => 1,
        FaultKind::Arity { .. } => 2,
        FaultKind::EmptySide => 3,
        FaultKind::TooManyAtoms => 4,
        FaultKind::DuplicateName(_) => 5,
        FaultKind::PlainCycle(_) => 6,
        FaultKind::BadByte(_) => 10,
        FaultKind::OpenText(_) => 11,
        FaultKind::WideNumber(_) => 12,
        FaultKind::LongText(_) => 13,
        FaultKind::Header => 20,
        FaultKind::Expected(_) => 21,
        FaultKind::UnknownLabel(_) => 22,
        FaultKind::NullNotBelow { .. } => 23,
        FaultKind::LimitReached(_) => 24,
        FaultKind::NoEnd => 25,
        FaultKind::AfterEnd => 26,
    }
}

fn wanted_text(wanted: Wanted) -> &'static [u8]
    ensures { result.now ≡ wanted_text wanted }
{
    match wanted {
        Wanted::Statement => b"statement",
        Wanted::Name => b"name",
        Wanted::Number => b"number",
        Wanted::Colon => b"colon",
        Wanted::Open => b"open",
        Wanted::CommaOrClose => b"comma or close",
        Wanted::Term => b"term",
        Wanted::Value => b"value",
        Wanted::Null => b"null",
        Wanted::NameOrArrow => b"name or arrow",
        Wanted::CommaOrArrow => b"comma or arrow",
        Wanted::NameOrEnd => b"name or end",
        Wanted::CommaOrEnd => b"comma or end",
        Wanted::Operation => b"operation",
        Wanted::With => b"with",
        Wanted::Choice => b"choice",
        Wanted::EndOfLine => b"end of line",
    }
}

fn which_text(which: Which) -> &'static [u8]
    ensures { result.now ≡ which_text which }
{
    match which {
        Which::Arity => b"arity",
        Which::Relations => b"relations",
        Which::Mappings => b"mappings",
        Which::Base => b"base",
        Which::Updates => b"updates",
        Which::Curators => b"curators",
        Which::Answers => b"answers",
    }
}

// Adds words, a name, and words.
fn push_named(out: &mut Vec<u8>, front: &[u8], name: &Name, rest: &[u8]) -> Result<(), AllocError>
    ensures { OnOk result (out.new.items ≡
        out.old.items ++ (front.now ++ (name.now.items ++ rest.now))) }
{
    out.extend_from_slice(front)?;
    out.extend_from_slice(name.as_slice())?;
    out.extend_from_slice(rest)
}

// Adds words and other words.
fn push_both(out: &mut Vec<u8>, front: &[u8], rest: &[u8]) -> Result<(), AllocError>
    ensures { OnOk result (out.new.items ≡ out.old.items ++ (front.now ++ rest.now)) }
{
    out.extend_from_slice(front)?;
    out.extend_from_slice(rest)
}

// Adds words and a place.
fn push_place(
    alloc: Global,
    out: &mut Vec<u8>,
    front: &[u8],
    place: usize,
) -> Result<(), AllocError>
    ensures { OnOk result (out.new.items ≡ out.old.items ++ (front.now ++ decimal place)) }
{
    let digits = format!(in alloc; "{place}")?;
    push_both(out, front, digits.as_bytes())
}

fn push_arity(
    alloc: Global,
    out: &mut Vec<u8>,
    name: &Name,
    expected: u16,
    found: u64,
) -> Result<(), AllocError>
    ensures { OnOk result (out.new.items ≡
        out.old.items ++ kind_text (Arity name.now.items expected found)) }
{
    let columns = format!(in alloc; " has {expected} columns, found {found}")?;
    push_named(out, b"relation ", name, columns.as_bytes())
}

fn push_null(alloc: Global, out: &mut Vec<u8>, name: OuterName) -> Result<(), AllocError>
    ensures { OnOk result (out.new.items ≡
        out.old.items ++ kind_text (NullNotBelow name.update name.place)) }
{
    let OuterName { update, place } = name;
    let words = format!(in alloc; "null ?{update}.{place} is not below")?;
    out.extend_from_slice(words.as_bytes())
}

fn push_kind(alloc: Global, out: &mut Vec<u8>, kind: &FaultKind) -> Result<(), AllocError>
    ensures { OnOk result (out.new.items ≡ out.old.items ++ kind_text (kind_of kind.now)) }
{
    match kind {
        FaultKind::UnknownRelation(name) => push_both(out, b"unknown relation ", name.as_slice()),
        FaultKind::Arity {
            name,
            expected,
            found,
        } => push_arity(alloc, out, name, *expected, *found),
        FaultKind::EmptySide => out.extend_from_slice(b"empty side"),
        FaultKind::TooManyAtoms => out.extend_from_slice(b"more than 8 atoms on a side"),
        FaultKind::DuplicateName(name) => push_named(out, b"name ", name, b" is used twice"),
        FaultKind::PlainCycle(name) => push_named(out, b"mapping ", name, b" closes a plain cycle"),
        FaultKind::BadByte(place) => push_place(alloc, out, b"bad byte at ", *place),
        FaultKind::OpenText(place) => {
            push_place(alloc, out, b"text is not closed, opened at ", *place)
        }
        FaultKind::WideNumber(place) => push_place(alloc, out, b"number out of range at ", *place),
        FaultKind::LongText(place) => {
            push_place(alloc, out, b"text longer than 256 bytes at ", *place)
        }
        FaultKind::Header => out.extend_from_slice(b"header is not youtopia 1 or 2"),
        FaultKind::Expected(wanted) => push_both(out, b"expected ", wanted_text(*wanted)),
        FaultKind::UnknownLabel(name) => push_both(out, b"unknown label ", name.as_slice()),
        FaultKind::NullNotBelow { update, place } => {
            let name = OuterName {
                update: *update,
                place: *place,
            };
            push_null(alloc, out, name)
        }
        FaultKind::LimitReached(which) => push_both(out, b"limit reached: ", which_text(*which)),
        FaultKind::NoEnd => out.extend_from_slice(b"end is missing"),
        FaultKind::AfterEnd => out.extend_from_slice(b"something follows end"),
    }
}

/// The text of a fault for users: `session line LINE: fault NUMBER: WORDS`.
pub fn fault_text(alloc: Global, fault: &SessionFault) -> Result<Vec<u8>, Memory>
    ensures text { IfOk result (λ text. text.items ≡ wrong_text (wrong_of fault.now)) }
{
    let line = fault.line;
    let number = number_of(&fault.kind);
    let head = format!(in alloc; "session line {line}: fault {number}: ")?;
    let mut text = head.into_bytes();
    push_kind(alloc, &mut text, &fault.kind)?;
    Ok(text)
}

//! Cases as lines of text.
use crate::case::Case;
use crate::refusals::CaseRefusal;
use base_types::{Atom, List, Null, Term, Tuple, Value, Word, Write};
use std::alloc::Global;

/// The case that a line spells. An error if an item is not spelled as it should be.
pub fn read_case(alloc: Global, line: &str) -> Result<Case, CaseRefusal> {
    let mut case = Case::new(alloc);
    for item in line.split(';') {
        read_item(alloc, &mut case, item.trim())?;
    }
    Ok(case)
}

// Adds what the item says to the case.
fn read_item(alloc: Global, case: &mut Case, item: &str) -> Result<(), CaseRefusal> {
    let (kind, rest) = halves(item)?;
    match kind {
        "variables" => read_variables(alloc, case, rest)?,
        "left" => case.mapping.left.push(read_atom(alloc, rest)?)?,
        "right" => case.mapping.right.push(read_atom(alloc, rest)?)?,
        "has" => {
            case.base.insert(read_tuple(alloc, rest)?)?;
        }
        "insert" => case.own.push(Write::Insert(read_tuple(alloc, rest)?))?,
        "delete" => case.own.push(Write::Delete(read_tuple(alloc, rest)?))?,
        _ => return Err(CaseRefusal::Spelling),
    }
    Ok(())
}

// The first word, and what comes after it.
fn halves(text: &str) -> Result<(&str, &str), CaseRefusal> {
    match text.split_once(' ') {
        Some(halves) => Ok(halves),
        None => Err(CaseRefusal::Spelling),
    }
}

// The number of universal variables, then the names of all.
fn read_variables(alloc: Global, case: &mut Case, text: &str) -> Result<(), CaseRefusal> {
    let (universal, names) = halves(text)?;
    case.mapping.universal = universal.parse::<u16>()?;
    for name in names.split_whitespace() {
        case.mapping.names.push(read_word(alloc, name)?)?;
    }
    Ok(())
}

// The number of a relation, then terms.
fn read_atom(alloc: Global, text: &str) -> Result<Atom, CaseRefusal> {
    let (relation, words) = halves(text)?;
    let mut terms = List::new(alloc);
    for word in words.split_whitespace() {
        terms.push(read_term(alloc, word)?)?;
    }
    Ok(Atom {
        relation: relation.parse::<u16>()?,
        terms,
    })
}

// The number of a relation, then values.
fn read_tuple(alloc: Global, text: &str) -> Result<Tuple, CaseRefusal> {
    let (relation, words) = halves(text)?;
    let mut values = List::new(alloc);
    for word in words.split_whitespace() {
        values.push(read_value(alloc, word)?)?;
    }
    Ok(Tuple::new(alloc, relation.parse::<u16>()?, values)?)
}

// A variable, as `x0`, or a value.
fn read_term(alloc: Global, word: &str) -> Result<Term, CaseRefusal> {
    match word.strip_prefix('x') {
        Some(number) => Ok(Term::Var(number.parse::<u16>()?)),
        None => Ok(Term::Const(read_value(alloc, word)?)),
    }
}

// A null, as `n1`, a word, as `wab`, or a number.
fn read_value(alloc: Global, word: &str) -> Result<Value, CaseRefusal> {
    if let Some(place) = word.strip_prefix('n') {
        return Ok(Value::Null(read_null(place)?));
    }
    match word.strip_prefix('w') {
        Some(text) => Ok(Value::Word(read_word(alloc, text)?)),
        None => Ok(Value::Int(word.parse::<i64>()?)),
    }
}

// The null at this place among those of update 1.
fn read_null(place: &str) -> Result<Null, CaseRefusal> {
    Ok(Null {
        update: 1,
        attempt: 0,
        place: place.parse::<u32>()?,
    })
}

// The bytes of a text.
fn read_word(alloc: Global, text: &str) -> Result<Word, CaseRefusal> {
    let mut word = List::new(alloc);
    for byte in text.bytes() {
        word.push(byte)?;
    }
    Ok(word)
}

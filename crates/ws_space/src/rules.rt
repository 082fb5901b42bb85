//! From said mappings to mappings by numbers.

use crate::texts::{bytes_of, small};
use base_types::{Atom, AtomList, Mapping, Memory, Name, NameList, Term, TermRow, Value};
use std::alloc::Global;
use ws_written::{Atom as SaidAtom, Rule, Term as SaidTerm};

/// The mapping by numbers of a said mapping, which has no `_` any more.
pub(crate) fn mapping_of(alloc: Global, rule: &Rule) -> Result<Mapping, Memory> {
    let mut names = NameList::new(alloc);
    let left = atoms_of(alloc, rule.left.as_slice(), &mut names)?;
    let universal = u16::try_from(names.len()).unwrap_or(u16::MAX);
    let right = atoms_of(alloc, rule.right.as_slice(), &mut names)?;
    Ok(Mapping {
        name: bytes_of(alloc, rule.name.as_str())?,
        names,
        universal,
        since: 0,
        left,
        right,
    })
}

/// Atoms by numbers. A variable without a number yet gets the next one.
pub(crate) fn atoms_of(
    alloc: Global,
    atoms: &[SaidAtom],
    names: &mut NameList,
) -> Result<AtomList, Memory> {
    let mut all = AtomList::new(alloc);
    for atom in atoms {
        all.push(Atom {
            relation: small(atom.relation),
            terms: terms_of(alloc, atom.terms.as_slice(), names)?,
        })?;
    }
    Ok(all)
}

fn terms_of(alloc: Global, terms: &[SaidTerm], names: &mut NameList) -> Result<TermRow, Memory> {
    let mut row = TermRow::new(alloc);
    for term in terms {
        row.push(term_of(alloc, term, names)?)?;
    }
    Ok(row)
}

fn term_of(alloc: Global, term: &SaidTerm, names: &mut NameList) -> Result<Term, Memory> {
    Ok(match term {
        SaidTerm::Variable(name) => Term::Var(variable_of(alloc, name.as_str(), names)?),
        SaidTerm::Number(number) => Term::Const(Value::Int(*number)),
        SaidTerm::Text(text) => Term::Const(Value::Word(bytes_of(alloc, text.as_str())?)),
    })
}

fn variable_of(alloc: Global, name: &str, names: &mut NameList) -> Result<u16, Memory> {
    let wanted = bytes_of(alloc, name)?;
    if let Some(number) = number_among(names, &wanted) {
        return Ok(number);
    }
    let number = u16::try_from(names.len()).unwrap_or(u16::MAX);
    names.push(wanted)?;
    Ok(number)
}

/// The place of a name in the list, from 0; None if it is not there.
pub(crate) fn number_among(names: &NameList, wanted: &Name) -> Option<u16> {
    for (number, name) in names.as_slice().iter().enumerate() {
        if name == wanted {
            return u16::try_from(number).ok();
        }
    }
    None
}

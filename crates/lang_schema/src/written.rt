//! Mappings as they are written, with the names of relations and variables.

use base_types::{List, Name, Value};

/// A term as it is written: a variable by its name, or a constant.
#[derive(Debug, Drop)]
pub enum RawTerm {
    Var(Name),
    Const(Value),
}

/// The terms of an atom by column.
pub type RawTermList = List<RawTerm>;

/// An atom as it is written: the name of its relation, and its terms by column.
#[derive(Debug, Drop)]
pub struct RawAtom {
    pub relation: Name,
    pub terms: RawTermList,
}

/// Atoms from left to right.
pub type RawAtomList = List<RawAtom>;

/// A side of a mapping: the mapping's name, and the side's atoms.
#[derive(Debug, Drop)]
pub struct RawAtoms {
    pub name: Name,
    pub atoms: RawAtomList,
}

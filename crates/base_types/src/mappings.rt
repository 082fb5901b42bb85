//! Terms, atoms and mappings.
ghost use Rattle.std.specs.Prelude.{◌≡◌, IfOk};
ghost use Rattle.def_chase.specs.Mappings.{Slot, Pattern};
ghost use Rattle.base_types.specs.Meanings.{slot_of, pattern_of, Named, named_of};

use crate::copying::TryCopy;
use crate::lists::{List, Name, NameList};
use crate::values::Value;
use def_memory::Memory;
use std::alloc::Global;

/// A term of an atom: a variable by its number, or a constant.
#[derive(Debug, Drop)]
pub enum Term {
    Var(u16),
    Const(Value),
}

/// The terms of an atom by column.
pub type TermRow = List<Term>;

/// An atom: the number of its relation and its terms by column.
#[derive(Debug, Drop)]
pub struct Atom {
    pub relation: u16,
    pub terms: TermRow,
}

/// Atoms that hold together.
pub type AtomList = List<Atom>;

/// A mapping, or tuple-generating dependency: if the atoms on the left hold, so do the atoms on the right, for some values of the
/// variables that stand only on the right. Variables are numbered from 0 by first occurrence, the left side first; `universal` of
/// them stand on the left, and `names` has the name of each. If `since` is 0, the mapping is in force from the start, otherwise
/// once the update of that number has put it in force.
#[derive(Debug, Drop)]
pub struct Mapping {
    pub name: Name,
    pub names: NameList,
    pub universal: u16,
    pub since: u32,
    pub left: AtomList,
    pub right: AtomList,
}

/// The mappings of a session by number.
pub type MappingList = List<Mapping>;

impl TryCopy for Term {
    ghost Meaning = { Slot };

    ghost meaning = { slot_of };

    fn copy(&self, alloc: Global) -> Result<Term, Memory>
        ensures same { IfOk result (λ copy. slot_of copy ≡ slot_of self.now) }
    {
        match self {
            Term::Var(variable) => Ok(Term::Var(*variable)),
            Term::Const(value) => Ok(Term::Const(value.copy(alloc)?)),
        }
    }
}

impl TryCopy for Atom {
    ghost Meaning = { Pattern };

    ghost meaning = { pattern_of };

    fn copy(&self, alloc: Global) -> Result<Atom, Memory>
        ensures same { IfOk result (λ copy. pattern_of copy ≡ pattern_of self.now) }
    {
        Ok(Atom {
            relation: self.relation,
            terms: self.terms.copy(alloc)?,
        })
    }
}

impl TryCopy for Mapping {
    ghost Meaning = { Named };

    ghost meaning = { named_of };

    fn copy(&self, alloc: Global) -> Result<Mapping, Memory>
        ensures same { IfOk result (λ copy. named_of copy ≡ named_of self.now) }
    {
        Ok(Mapping {
            name: self.name.copy(alloc)?,
            names: self.names.copy(alloc)?,
            universal: self.universal,
            since: self.since,
            left: self.left.copy(alloc)?,
            right: self.right.copy(alloc)?,
        })
    }
}

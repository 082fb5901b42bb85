//! The variables of a mapping, numbered by first occurrence.

ghost use Rattle.std.specs.Prelude.{◌≡◌, [], IfOk, OnOk, flat_map, fold, map, length};
ghost use Rattle.def_language.specs.Names.{same_name, place_of, with_new};
ghost use Rattle.def_language.specs.Meaning.{slot_of, variable_of, variables_in};
ghost use Rattle.base_types.specs.Meanings.{slot_of as slot_meant};
ghost use Rattle.lang_schema.specs.Meanings.{atom_of, term_of};

use crate::names::Names;
use crate::written::{RawAtom, RawTerm};
use base_types::{List, Memory, Name, NameList, Term, TermRow, TryCopy};
use std::alloc::Global;
use std::marker::Model;

/// Names, each once, numbered from 0 in the order in which they came. Contracts see them as a list.
#[derive(Drop)]
pub(crate) struct Variables {
    names: Names,
}

impl Model for Variables {
    ghost use Rattle.std.specs.Prelude.{ℕ, List};

    ghost Value = { List (List ℕ) };

    ghost view = { λ v. v.names.items };
}

impl Variables {
    /// No name.
    pub(crate) fn new(alloc: Global) -> Variables
        ensures { result ≡ [] }
    {
        Variables {
            names: Names::new(alloc),
        }
    }

    /// The number of names.
    pub(crate) fn len(&self) -> usize
        ensures { result ≡ length self.now }
    {
        self.names.len()
    }

    // The number of a name, or the number of names if it is not there.
    fn place_of(&self, name: &Name) -> usize
        ensures { result ≡ place_of self.now name.now.items }
    {
        match self.names.find(name) {
            Some(place) => place,
            None => self.names.len(),
        }
    }

    // Adds a name, unless it is there.
    fn note(&mut self, alloc: Global, name: &Name) -> Result<(), Memory>
        ensures noted { OnOk result (self.new ≡ with_new same_name self.old name.now.items) }
    {
        self.names.note(Vec::from_slice(alloc, name.as_slice())?)
    }

    fn note_term(&mut self, alloc: Global, term: &RawTerm) -> Result<(), Memory>
        ensures noted { OnOk result (self.new ≡
            fold (with_new same_name) self.old (variable_of (term_of term.now))) }
    {
        match term {
            RawTerm::Var(name) => self.note(alloc, name),
            RawTerm::Const(_) => Ok(()),
        }
    }

    #[tactic(auto, using(crate::proofs::Noted::fold_more))]
    fn note_atom(&mut self, alloc: Global, atom: &RawAtom) -> Result<(), Memory>
        ensures noted { OnOk result (self.new ≡
            fold (with_new same_name) self.old
            (flat_map variable_of (map term_of atom.now.terms.items))) }
    {
        for term in atom.terms.as_slice() {
            self.note_term(alloc, term)?;
        }
        Ok(())
    }

    /// Adds the variables of atoms.
    #[tactic(auto, using(crate::proofs::Noted::fold_more))]
    pub(crate) fn note_atoms(&mut self, alloc: Global, atoms: &[RawAtom]) -> Result<(), Memory>
        ensures noted { OnOk result (self.new ≡
            fold (with_new same_name) self.old (variables_in (map atom_of atoms.now))) }
    {
        for atom in atoms {
            self.note_atom(alloc, atom)?;
        }
        Ok(())
    }

    // A term, with its variable by number. The numbers of variables fit, since the atoms of a mapping
    // have at most 128 terms.
    fn term(&self, alloc: Global, term: &RawTerm) -> Result<Term, Memory>
        ensures { IfOk result (λ t. slot_meant t ≡ slot_of self.now (term_of term.now)) }
    {
        match term {
            RawTerm::Var(name) => match u16::try_from(self.place_of(name)) {
                Ok(number) => Ok(Term::Var(number)),
                Err(_) => Err(Memory),
            },
            RawTerm::Const(value) => Ok(Term::Const(value.copy(alloc)?)),
        }
    }

    /// The terms of an atom, with their variables by number.
    pub(crate) fn terms(&self, alloc: Global, terms: &[RawTerm]) -> Result<TermRow, Memory>
        ensures { IfOk result (λ row. map slot_meant row.items ≡
            map (slot_of self.now) (map term_of terms.now)) }
    {
        let mut row = List::new(alloc);
        for term in terms {
            row.push(self.term(alloc, term)?)?;
        }
        Ok(row)
    }

    /// The names in the order of their numbers.
    pub(crate) fn list(&self, alloc: Global) -> Result<NameList, Memory>
        ensures { IfOk result (λ names. map (λ n. n.items) names.items ≡ self.now) }
    {
        self.names.list(alloc)
    }
    /// The names.
    pub(crate) fn into_names(self) -> Names
        ensures { result.items ≡ self }
    {
        let Variables { names } = self;
        names
    }
}

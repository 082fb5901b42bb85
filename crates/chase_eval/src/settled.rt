//! Settled mappings: no write since they were last searched can have given them a violation.
ghost use Rattle.std.specs.Prelude.{◌≡◌, ◌==◌, ◌&&◌, ℕ, true, false, not, Some, slice_index_or, slice_set, replicate, map, IfOk};
ghost use Rattle.std.specs.List.{list_any};
ghost use Rattle.base_types.specs.Meanings.{change_of, pattern_of, rule_of};
ghost use Rattle.chase_eval.specs.Touching.{is_among, IsTouching, IsTouchingIf};
ghost use Rattle.chase_eval.specs.Watched.{asks_settled, with_settled, stirs, touches as touches_def, LoseMarks, LoseMarksTo, LosesMark};
ghost use Rattle.base_types.specs.Contents.{rules_in};
ghost use Rattle.chase_query.specs.Meanings.{query_of};

use crate::scopes::relation_of;
use crate::touching::Touching;
use base_types::{Atom, FORCE_RELATION, Mapping, MappingList, Memory, Write};
use chase_query::Query;
use std::alloc::Global;
use std::marker::Model;

/// A mark for each mapping by number: whether it is settled. Contracts see the marks.
#[derive(Drop)]
pub struct Settled {
    marks: Vec<bool>,
}

impl Model for Settled {
    ghost use Rattle.std.specs.Prelude.{List, Bool};

    ghost Value = { List Bool };

    ghost view = { λ s. s.marks.items };
}

impl Settled {
    /// `count` mappings, all settled.
    pub fn all(alloc: Global, count: usize) -> Result<Settled, Memory>
        ensures all { IfOk result (λ settled. settled ≡ replicate count true) }
    {
        match vec![in alloc; true; count] {
            Ok(marks) => Ok(Settled { marks }),
            Err(_) => Err(Memory),
        }
    }

    /// `count` mappings, none settled.
    pub fn none(alloc: Global, count: usize) -> Result<Settled, Memory>
        ensures none { IfOk result (λ settled. settled ≡ replicate count false) }
    {
        match vec![in alloc; false; count] {
            Ok(marks) => Ok(Settled { marks }),
            Err(_) => Err(Memory),
        }
    }

    /// A copy with the same marks.
    pub fn copy(&self, alloc: Global) -> Result<Settled, Memory>
        ensures same { IfOk result (λ copy. copy ≡ self.now) }
    {
        let mut marks = Vec::new(alloc);
        marks.extend_from_slice(&self.marks)?;
        Ok(Settled { marks })
    }

    /// A mark for each mapping by number.
    pub fn marks(&self) -> &[bool]
        ensures marks { result.now ≡ self.now }
    {
        &self.marks
    }

    /// Whether the mapping of this number is settled; no if it is not in the list.
    pub fn has(&self, number: u16) -> bool
        ensures mark { result ≡ slice_index_or self.now number false }
    {
        self.marks.get(number as usize).copied().unwrap_or(false)
    }

    /// Settles the mapping of this number, if it is in the list.
    pub fn settle(&mut self, number: u16)
        ensures set { self.new ≡ slice_set self.old number true }
    {
        if let Some(mark) = self.marks.get_mut(number as usize) {
            *mark = true;
        }
    }

    /// Whether the query asks for the first violation of a settled mapping.
    pub fn knows(&self, query: &Query) -> bool
        ensures known { result ≡ asks_settled self.now (query_of query.now) }
    {
        match query {
            Query::Violation(number) => self.has(*number),
            Query::Present(_) => false,
            Query::Specific(_) => false,
            Query::Occurs(_) => false,
        }
    }

    /// Settles the mapping whose first violation the query asks for, if there is one.
    pub fn learn(&mut self, query: &Query)
        ensures learnt { self.new ≡ with_settled self.old (query_of query.now) }
    {
        match query {
            Query::Violation(number) => self.settle(*number),
            Query::Present(_) => {}
            Query::Specific(_) => {}
            Query::Occurs(_) => {}
        }
    }

    /// Unsettles the mappings to which one of the writes may give a violation. They are looked up in `touching`.
    pub fn stir_all(&mut self, touching: &Touching, mappings: &MappingList, writes: &[Write])
        requires touching { IsTouching (rules_in mappings.now) touching.now }
        ensures left { LoseMarksTo (map change_of writes.now) (rules_in mappings.now) self.old
            self.new }
    {
        for write in writes {
            self.stir_by(Some(touching), mappings, write);
        }
    }

    /// Unsettles the mappings to which the write may give a violation. For an insertion these have an atom of its relation on the
    /// left, for a deletion on the right; if the write may put a mapping in force, they are all mappings. They are looked up in
    /// `touching`, if it is given.
    pub(crate) fn stir_by(
        &mut self,
        touching: Option<&Touching>,
        mappings: &MappingList,
        write: &Write,
    )
        requires touching { IsTouchingIf (rules_in mappings.now) touching }
        ensures left { LoseMarks (stirs (change_of write.now))
            (rules_in mappings.now) self.old self.new }
    {
        if relation_of(write) == FORCE_RELATION {
            self.marks.fill(false);
            return;
        }
        match touching {
            Some(touching) => match touching.numbers(write) {
                Some(numbers) => self.unsettle_all(numbers.as_slice()),
                None => self.stir_touched(mappings, write),
            },
            None => self.stir_touched(mappings, write),
        }
    }

    // Takes the marks of these mappings away.
    fn unsettle_all(&mut self, numbers: &[usize])
        ensures set { (n : ℕ) → slice_index_or self.new n false ≡
            (slice_index_or self.old n false && not (is_among numbers.now n)) }
    {
        for number in numbers {
            self.unsettle(*number);
        }
    }

    // Unsettles the mappings that the write touches.
    fn stir_touched(&mut self, mappings: &MappingList, write: &Write)
        ensures left { LoseMarks (touches_def (change_of write.now))
            (rules_in mappings.now) self.old self.new }
    {
        for (number, mapping) in mappings.as_slice().iter().enumerate() {
            self.stir_one(number, mapping, write);
        }
    }

    // Unsettles the mapping, which has this number, if the write touches it.
    fn stir_one(&mut self, number: usize, mapping: &Mapping, write: &Write)
        ensures mark { LosesMark (touches_def (change_of write.now)
            (Some (rule_of mapping.now))) number self.old self.new }
        ensures others { (n : ℕ) → (n ≡ number → ⊥) →
            slice_index_or self.new n false ≡ slice_index_or self.old n false }
    {
        if touches(mapping, write) {
            self.unsettle(number);
        }
    }

    // Takes the mark of the mapping of this number away, if it is in the list.
    fn unsettle(&mut self, number: usize)
        ensures set { self.new ≡ slice_set self.old number false }
    {
        if let Some(mark) = self.marks.get_mut(number) {
            *mark = false;
        }
    }
}

// Whether the mapping has an atom of the write's relation, on the left for an insertion, on the right for a deletion.
fn touches(mapping: &Mapping, write: &Write) -> bool
    ensures answer { result ≡ touches_def (change_of write.now) (Some (rule_of mapping.now)) }
{
    match write {
        Write::Insert(tuple) => stands_in(mapping.left.as_slice(), tuple.relation),
        Write::Delete(tuple) => stands_in(mapping.right.as_slice(), tuple.relation),
    }
}

/// Whether one of the atoms is of the relation.
pub(crate) fn stands_in(atoms: &[Atom], relation: u16) -> bool
    ensures answer { result ≡ list_any (λ a. a.relation == relation) (map pattern_of atoms.now) }
{
    atoms.iter().any(|atom| atom.relation == relation)
}

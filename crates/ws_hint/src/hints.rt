//! Hints about tuples that one command inserts.

use crate::kinds::{Kinds, add_kinds, has_digits, kinds_of};
use crate::twins::{add_key, add_twins, twins_of};
use crate::vague::{VagueColumn, vague_of};
use crate::waits::add_waits;
use base_types::{Memory, Tuple};
use std::alloc::Global;
use std::collections::BTreeMap;
use ws_report::Note;
use ws_space::{Space, copy_value};
use ws_written::{Fact, NewFact, NewValue};

/// What the hints need, computed once for each relation: its tuples with unknowns, and the kinds of its values.
#[derive(Drop)]
pub struct Hints {
    alloc: Global,
    vague: BTreeMap<u16, Vec<VagueColumn>>,
    kinds: BTreeMap<u16, Vec<Kinds>>,
}

impl Hints {
    /// Hints before any relation was looked at.
    pub fn new(alloc: Global) -> Hints {
        Hints {
            alloc,
            vague: BTreeMap::new(alloc),
            kinds: BTreeMap::new(alloc),
        }
    }

    /// Adds the hints about a tuple that the update with this number inserts. A tuple with a new unknown gets none.
    pub fn add(
        &mut self,
        space: &Space,
        fact: &NewFact,
        number: u32,
        notes: &mut Vec<Note>,
    ) -> Result<(), Memory> {
        let alloc = self.alloc;
        let Some(known) = known_fact(alloc, fact)? else {
            return Ok(());
        };
        add_waits(alloc, space, &known, number, notes)?;
        let Some(tuple) = space.within(alloc, &known)? else {
            return Ok(());
        };
        self.add_same(space, &tuple, notes)?;
        if has_digits(&tuple) {
            self.add_digits(space, &tuple, notes)?;
        }
        Ok(())
    }

    // Adds the hints about tuples that may be the same, or that have the same key.
    fn add_same(
        &mut self,
        space: &Space,
        tuple: &Tuple,
        notes: &mut Vec<Note>,
    ) -> Result<(), Memory> {
        let alloc = self.alloc;
        let relation = tuple.relation;
        if !self.vague.contains_key(&relation) {
            let columns = vague_of(alloc, space, relation)?;
            if self.vague.insert(relation, columns).is_err() {
                return Err(Memory);
            }
        }
        let twins = twins_of(alloc, self.looked_at(relation), tuple)?;
        add_twins(alloc, space, &twins, tuple, notes)?;
        add_key(alloc, space, &twins, tuple, notes)
    }

    // The columns of a relation with its tuples that have unknowns; empty if the relation was not looked at.
    fn looked_at(&self, relation: u16) -> &[VagueColumn] {
        match self.vague.get(&relation) {
            Some(columns) => columns.as_slice(),
            None => &[],
        }
    }

    // Adds the hints about texts of digits.
    fn add_digits(
        &mut self,
        space: &Space,
        tuple: &Tuple,
        notes: &mut Vec<Note>,
    ) -> Result<(), Memory> {
        let alloc = self.alloc;
        let relation = tuple.relation;
        if !self.kinds.contains_key(&relation) {
            let kinds = kinds_of(alloc, space, relation)?;
            if self.kinds.insert(relation, kinds).is_err() {
                return Err(Memory);
            }
        }
        match self.kinds.get(&relation) {
            Some(kinds) => add_kinds(alloc, space, kinds.as_slice(), tuple, notes),
            None => Ok(()),
        }
    }
}

/// The tuple; None if it has a new unknown.
pub fn known_fact(alloc: Global, fact: &NewFact) -> Result<Option<Fact>, Memory> {
    let mut values = Vec::new(alloc);
    for value in fact.values.iter() {
        match value {
            NewValue::Known(known) => values.push(copy_value(alloc, known)?)?,
            _ => return Ok(None),
        }
    }
    Ok(Some(Fact {
        relation: fact.relation,
        values,
    }))
}

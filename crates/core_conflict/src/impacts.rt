//! Impacts: a summary of writes, which says what an attempt must have written or asked for so that one of them may meet a read.
ghost use Rattle.std.specs.Prelude.{◌≡◌, ◌==◌, ◌||◌, true, map};
ghost use Rattle.std.specs.Option.{option_map, option_copied};
ghost use Rattle.std.specs.List.{list_all, zip};
ghost use Rattle.base_types.specs.Contents.{rules_in};
ghost use Rattle.base_types.specs.Meanings.{change_of, datum_of, fact_of, pattern_of, rule_of, slot_of};
ghost use Rattle.core_conflict.specs.Concerns.{columns};
ghost use Rattle.core_conflict.specs.Impacts.{IsImpactWithin, IsReachWithin, has_change, has_joins, has_key, has_right, has_rule, has_seat, has_seats, has_tuple_asked, is_var, key_from, standing_in, value_in};
ghost use Rattle.core_conflict.specs.Keys.{key_of};

use crate::concerns::{Sense, tuple_of};
use crate::footprints::with_values;
use crate::joins::{adds, stands_in};
use crate::signatures::{Signature, home, spot};
use base_types::{Atom, Mapping, MappingList, Term, Tuple, Value, Write};

/// The spots of the own writes that may join with one of the writes, or, if `every` is set, any own write.
#[derive(Clone, Copy, Debug)]
pub(crate) struct Reach {
    pub(crate) every: bool,
    pub(crate) own: Signature,
}

/// What an attempt must have written, forward or backward, or asked for, so that one of the writes may meet a read of it.
#[derive(Clone, Copy, Debug)]
pub struct Impact {
    pub(crate) forward: Reach,
    pub(crate) backward: Reach,
    pub(crate) asked: Signature,
}

// A value that an own write must have in a column.
#[derive(Clone, Copy)]
pub(crate) struct Key<'t> {
    pub(crate) column: u64,
    pub(crate) value: &'t Value,
}

impl Impact {
    /// The impact of no write.
    pub fn none() -> Impact {
        Impact {
            forward: Reach::none(),
            backward: Reach::none(),
            asked: Signature::empty(),
        }
    }

    /// The impact with these further writes, which came or went.
    pub fn with(self, mappings: &MappingList, sense: Sense, writes: &[Write]) -> Impact
        ensures more { IsImpactWithin self result }
        ensures has { list_all (has_change result (rules_in mappings.now) sense)
            (map change_of writes.now) ≡ true }
    {
        let mut all = self;
        for write in writes {
            all = all.with_one(mappings, sense, write);
        }
        all
    }

    // The impact with one further write.
    fn with_one(self, mappings: &MappingList, sense: Sense, write: &Write) -> Impact
        ensures more { IsImpactWithin self result }
        ensures has { has_change result (rules_in mappings.now) sense (change_of write.now) ≡ true }
    {
        let tuple = tuple_of(write);
        let asked = self.asked_for(tuple);
        asked.by_each(mappings.as_slice(), adds(sense, write), tuple)
    }

    // The impact with the reads that ask for the tuple.
    fn asked_for(self, tuple: &Tuple) -> Impact
        ensures more { IsImpactWithin self result }
        ensures has { has_tuple_asked result (fact_of tuple.now) ≡ true }
    {
        let here = self.asked.with(home(tuple.relation));
        Impact {
            forward: self.forward,
            backward: self.backward,
            asked: with_values(here, tuple),
        }
    }

    // The impact with the own writes that join with the tuple by one of the mappings. `adds`: the tuple is there now and was
    // not before.
    fn by_each(self, mappings: &[Mapping], adds: bool, tuple: &Tuple) -> Impact
        ensures more { IsImpactWithin self result }
        ensures has { list_all (has_rule result adds (fact_of tuple.now))
            (map rule_of mappings.now) ≡ true }
    {
        let mut all = self;
        for mapping in mappings {
            all = all.by(mapping, adds, tuple);
        }
        all
    }

    // The impact with the own writes that join with the tuple by the mapping.
    fn by(self, mapping: &Mapping, adds: bool, tuple: &Tuple) -> Impact
        ensures more { IsImpactWithin self result }
        ensures has { has_rule result adds (fact_of tuple.now) (rule_of mapping.now) ≡ true }
    {
        let left = mapping.left.as_slice();
        let right = mapping.right.as_slice();
        let forward = self.forward.with(left, left, tuple);
        let backward = self.backward.with(right, left, tuple);
        Impact {
            forward: forward.with(left, right, tuple),
            backward: backward.with_right(right, adds, tuple),
            asked: self.asked,
        }
    }
}

impl Reach {
    // The reach of no write.
    fn none() -> Reach {
        Reach {
            every: false,
            own: Signature::empty(),
        }
    }

    // The reach with the own writes that stand at one of the seats if the tuple stands at one of the atoms.
    fn with(self, seats: &[Atom], atoms: &[Atom], tuple: &Tuple) -> Reach
        ensures more { IsReachWithin self result }
        ensures has { has_joins result (map pattern_of seats.now) (map pattern_of atoms.now)
            (fact_of tuple.now) ≡ true }
    {
        let mut all = self;
        for atom in atoms {
            all = all.with_atom(seats, atom, tuple);
        }
        all
    }

    // The reach with any own write, if the tuple was there before and stood at one of the atoms.
    fn with_right(self, atoms: &[Atom], adds: bool, tuple: &Tuple) -> Reach
        ensures more { IsReachWithin self result }
        ensures has { has_right result (map pattern_of atoms.now) adds (fact_of tuple.now) ≡ true }
    {
        if adds {
            return self;
        }
        self.widened(stands_in(atoms, tuple.relation))
    }

    // The reach with the own writes that stand at one of the seats if the tuple stands at the atom.
    fn with_atom(self, seats: &[Atom], atom: &Atom, tuple: &Tuple) -> Reach
        ensures more { IsReachWithin self result }
        ensures has { has_seats result (map pattern_of seats.now) (fact_of tuple.now)
            (pattern_of atom.now) ≡ true }
    {
        if atom.relation != tuple.relation {
            return self;
        }
        self.with_seats(seats, atom, tuple)
    }

    // The reach with the own writes that stand at one of the seats if the tuple stands at the atom, which is of its relation.
    fn with_seats(self, seats: &[Atom], atom: &Atom, tuple: &Tuple) -> Reach
        ensures more { IsReachWithin self result }
        ensures has { list_all (has_seat result (fact_of tuple.now) (pattern_of atom.now))
            (map pattern_of seats.now) ≡ true }
    {
        let mut all = self;
        for seat in seats {
            all = all.with_key(seat.relation, first_key(seat.terms.as_slice(), atom, tuple));
        }
        all
    }

    // The reach with the own writes of the relation that have the key, or with all own writes if there is no key.
    fn with_key(self, relation: u16, key: Option<Key<'_>>) -> Reach
        ensures more { IsReachWithin self result }
        ensures has { has_key result relation (option_map key_of key.entry) ≡ true }
    {
        match key {
            Some(key) => Reach {
                every: self.every,
                own: self.own.with(spot(relation, key.column, key.value)),
            },
            None => self.widened(true),
        }
    }

    // The reach with any own write if `every` is set.
    fn widened(self, every: bool) -> Reach
        ensures more { IsReachWithin self result }
        ensures every { every ≡ true → result.every ≡ true }
    {
        Reach {
            every: self.every || every,
            own: self.own,
        }
    }
}

// The first of the terms that is a variable of the atom, with the value that it has if the tuple stands at the atom.
fn first_key<'t>(terms: &[Term], atom: &Atom, tuple: &'t Tuple) -> Option<Key<'t>>
    ensures key { option_map key_of result ≡ key_from 0 (map slot_of terms.now)
        (columns (pattern_of atom.now) (fact_of tuple.now)) }
{
    let mut column = 0;
    for term in terms {
        if let Some(value) = standing_for(term, atom, tuple) {
            return Some(Key { column, value });
        }
        column += 1;
    }
    None
}

// The value that the term has if the tuple stands at the atom, if the term is a variable of the atom.
fn standing_for<'t>(term: &Term, atom: &Atom, tuple: &'t Tuple) -> Option<&'t Value>
    ensures value { option_map datum_of (option_copied result) ≡ standing_in (slot_of term.now)
        (columns (pattern_of atom.now) (fact_of tuple.now)) }
{
    match term {
        Term::Var(variable) => value_of(*variable, atom.terms.as_slice(), tuple.values.as_slice()),
        Term::Const(_) => None,
    }
}

// The value of the variable if these terms stand for these values.
fn value_of<'t>(variable: u16, terms: &[Term], values: &'t [Value]) -> Option<&'t Value>
    ensures value { option_map datum_of (option_copied result) ≡ value_in variable
        (zip (map slot_of terms.now) (map datum_of values.now)) }
{
    let found = terms
        .iter()
        .zip(values)
        .find(|pair| is_variable(pair.0, variable));
    match found {
        Some(pair) => Some(pair.1),
        None => None,
    }
}

// Whether the term is the variable.
fn is_variable(term: &Term, variable: u16) -> bool
    ensures { result ≡ is_var variable (slot_of term.now) }
{
    match term {
        Term::Var(other) => variable == *other,
        Term::Const(_) => false,
    }
}

//! A set of tuples as writes leave it, without a copy of the set.
ghost use Rattle.std.specs.Prelude.{◌≡◌, ◌&&◌, List, not, map, OnErr, OnOk};
ghost use Rattle.std.specs.Option.{option_map, option_copied};
ghost use Rattle.base_types.specs.Candidates.{column_of, further_candidates, AreFirst, AreFurther};
ghost use Rattle.def_chase.specs.Repository.{Delete, Insert, has, change, apply, IsRepository};
ghost use Rattle.base_types.specs.Meanings.{fact_of, change_of};
ghost use Rattle.def_chase.specs.Values.{Fact};
ghost use Rattle.set_facts.specs.Begun.{HoldsOfFirst};
ghost use Rattle.set_facts.specs.Overlaid.{overlaid};

use crate::changed::changed;
use crate::course::{Course, least, remaining};
use crate::group::Group;
use base_tree::Few;
use base_types::{Candidates, Column, Facts, Memory, OuterName, TryCopy, Tuple, Value, Write};
use std::alloc::Global;
use std::marker::Model;

/// A set with writes applied to it in turn. It borrows the set, and keeps only the tuples that the writes delete or insert.
/// Contracts see the list of its tuples, in order.
#[derive(Drop)]
pub struct Overlay<'a, F: Facts> {
    facts: &'a F,
    gone: Group,
    added: Group,
}

impl<'a, F: Facts> Model for Overlay<'a, F> {
    ghost use Rattle.std.specs.Prelude.{List};
    ghost use Rattle.def_chase.specs.Values.{Fact};

    ghost Value = { List Fact };

    ghost use Rattle.set_facts.specs.Overlaid.{overlaid};

    ghost view = { λ o. overlaid (F.tuples o.facts.now) o.gone o.added };

    ghost use Rattle.def_chase.specs.Repository.{IsRepository};

    ghost invariant = { λ o. IsRepository (F.tuples o.facts.now) };
}

impl<'a, F: Facts> Overlay<'a, F> {
    /// The set as it is, before any write.
    pub fn new(alloc: Global, facts: &'a F) -> Overlay<'a, F>
        ensures same { result ≡ F.tuples facts.now }
    {
        // The set promises that it is in order.
        facts.is_in_order();
        Overlay {
            facts,
            gone: Group::new(alloc),
            added: Group::new(alloc),
        }
    }

    /// Applies one write. If it is refused, the tuples are unchanged.
    pub fn write(&mut self, alloc: Global, write: &Write) -> Result<(), Memory>
        ensures ok { OnOk result (self.new ≡ change self.old (change_of write.now)) }
        ensures err { OnErr result (self.new ≡ self.old) }
    {
        match write {
            Write::Insert(tuple) => self.insert(alloc, tuple),
            Write::Delete(tuple) => self.delete(alloc, tuple),
        }
    }

    // Inserts a tuple. The set is not searched, so a tuple that it has may be added too.
    fn insert(&mut self, alloc: Global, tuple: &Tuple) -> Result<(), Memory>
        ensures ok { OnOk result (self.new ≡ change self.old (Insert (fact_of tuple.now))) }
        ensures err { OnErr result (self.new ≡ self.old) }
    {
        self.added.insert(tuple.copy(alloc)?)?;
        Ok(())
    }

    // Deletes a tuple: if the set has it, it counts as gone; it no longer counts as added.
    fn delete(&mut self, alloc: Global, tuple: &Tuple) -> Result<(), Memory>
        ensures ok { OnOk result (self.new ≡ change self.old (Delete (fact_of tuple.now))) }
        ensures err { OnErr result (self.new ≡ self.old) }
    {
        if self.facts.contains(tuple) {
            self.gone.insert(tuple.copy(alloc)?)?;
            self.added.remove(tuple);
            Ok(())
        } else {
            self.added.remove(tuple);
            Ok(())
        }
    }

    /// Applies the writes in turn. If it is refused, some first part of them is applied, and the others are not.
    pub fn write_all(&mut self, alloc: Global, writes: &[Write]) -> Result<(), Memory>
        ensures ok { OnOk result (self.new ≡ apply self.old (map change_of writes.now)) }
        ensures err { OnErr result
            (HoldsOfFirst (λ some. self.new ≡ apply self.old some) writes.now) }
    {
        for write in writes {
            self.write(alloc, write)?;
        }
        Ok(())
    }
}

impl<'a, F: Facts> Facts for Overlay<'a, F> {
    ghost tuples = { λ D. D };

    fn is_in_order(&self) {
        let _ = &self.facts;
    }

    fn contains(&self, tuple: &Tuple) -> bool {
        is_left(self.facts, &self.gone, tuple) || self.added.contains(tuple)
    }

    fn beyond(&self, past: Option<&Tuple>) -> Option<&Tuple> {
        let below = self.facts.beyond(past);
        let left = remaining(self.facts, &self.gone, &Course::All, below);
        least(left, self.added.beyond(past))
    }

    fn first(&self, relation: u16) -> Option<&Tuple> {
        let below = self.facts.first(relation);
        let left = remaining(self.facts, &self.gone, &Course::Relation, below);
        least(left, self.added.first(relation))
    }

    fn after(&self, tuple: &Tuple) -> Option<&Tuple> {
        let below = self.facts.after(tuple);
        let left = remaining(self.facts, &self.gone, &Course::Relation, below);
        least(left, self.added.after(tuple))
    }

    fn scan(
        &self,
        relation: u16,
        column: u16,
        value: &Value,
        past: Option<&Tuple>,
    ) -> Option<&Tuple> {
        let below = self.facts.scan(relation, column, value, past);
        let course = Course::Column(relation, column, value);
        let left = remaining(self.facts, &self.gone, &course, below);
        least(left, self.added.scan(relation, column, value, past))
    }

    fn holding(&self, name: OuterName, past: Option<&Tuple>) -> Option<&Tuple> {
        let below = self.facts.holding(name, past);
        let course = Course::Holding(name);
        let left = remaining(self.facts, &self.gone, &course, below);
        least(left, self.added.holding(name, past))
    }

    // The values that the set has at hand, if no tuple of the relation was added.
    fn values(&self, relation: u16, column: u16) -> Option<&[Value]> {
        if self.added.is_beside(relation) {
            self.facts.values(relation, column)
        } else {
            None
        }
    }

    // The set's own candidates if no write affects them, otherwise a few of set and writes merged.
    fn candidates(
        &self,
        relation: u16,
        column: Option<Column<'_>>,
        past: Option<&Tuple>,
    ) -> Candidates<'_> {
        // The tuples that were added promise that they are in order.
        self.added.is_in_order();
        let adds_none = self.added.is_beside(relation);
        if adds_none && self.gone.is_beside(relation) {
            self.facts.candidates(relation, column, past)
        } else {
            self.written(relation, column, past)
        }
    }
}

impl<'a, F: Facts> Overlay<'a, F> {
    // The candidates, if a write may affect them.
    fn written(
        &self,
        relation: u16,
        column: Option<Column<'_>>,
        past: Option<&Tuple>,
    ) -> Candidates<'_>
        ensures all { AreFurther result self.now relation column.entry (option_copied past.entry) }
    {
        if let Some(few) = self.added.few(relation, column, past) {
            return with_few(self.facts, &self.gone, few, relation, column, past);
        }
        if self.gone.lacks(relation, column) {
            return self.facts.candidates(relation, column, past);
        }
        with_few(self.facts, &self.gone, Few::new(), relation, column, past)
    }
}

// The candidates of the set as writes leave it, if `few` are the first of the added ones.
#[inline(always)]
fn with_few<'a, F: Facts>(
    facts: &'a F,
    gone: &'a Group,
    few: Few<'a, Tuple>,
    relation: u16,
    column: Option<Column<'_>>,
    past: Option<&Tuple>,
) -> Candidates<'a>
    ensures all { (added : List Fact) → IsRepository added →
        AreFirst few.entry (further_candidates added relation (option_map column_of column.entry)
        (option_map fact_of (option_copied past.entry))) →
        AreFurther result (overlaid (F.tuples facts.now) gone.now added) relation column.entry
        (option_copied past.entry) }
{
    changed(facts.candidates(relation, column, past), gone, few)
}

// Whether the tuple is in the set and not gone.
fn is_left<F: Facts>(facts: &F, gone: &Group, tuple: &Tuple) -> bool
    ensures left { result ≡ (has (F.tuples facts.now) (fact_of tuple.now) &&
        not (has gone.now (fact_of tuple.now))) }
    ensures in_order { IsRepository (F.tuples facts.now) }
{
    facts.contains(tuple) && !gone.contains(tuple)
}

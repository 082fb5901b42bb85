//! The base tuples of a session that has been taken so far, relation by relation.

ghost use Rattle.std.specs.Prelude.{◌≡◌, ◌+◌, ◌<◌, ◌≤◌, [], length, map, nat_le, IfOk, OnOk, OnErr};
ghost use Rattle.def_chase.specs.Repository.{has, change, Insert};
ghost use Rattle.base_types.specs.Meanings.{fact_of};
ghost use Rattle.lang_checks.specs.Bases.{AreApart, gathered};

use base_types::{List, Memory, Tuple, TupleList};
use set_facts::RisingFacts;
use std::alloc::Global;
use std::marker::Model;

/// A set of tuples that are put in one by one. It has a set for each relation, which is a list as long as that relation's tuples
/// come nearly in order. Contracts see the list of all tuples, in order.
#[derive(Drop)]
pub(crate) struct Base {
    relations: Vec<RisingFacts>,
    // A bound of the number of tuples. As long as it is below a limit, the tuples need not be counted.
    most: usize,
    alloc: Global,
}

impl Model for Base {
    ghost use Rattle.std.specs.Prelude.{◌≤◌, List, length};
    ghost use Rattle.def_chase.specs.Values.{Fact};
    ghost use Rattle.lang_checks.specs.Bases.{AreApart, gathered};

    ghost Value = { List Fact };

    ghost view = { λ b. gathered b.relations.items };

    ghost invariant = { λ b. AreApart 0 b.relations.items
        × (length (gathered b.relations.items) ≤ b.most) };
}

impl Base {
    /// The empty set.
    pub(crate) fn new(alloc: Global) -> Base
        ensures empty { result ≡ [] }
    {
        Base {
            relations: Vec::new(alloc),
            most: 0,
            alloc,
        }
    }

    /// Whether there are at least `most` tuples.
    pub(crate) fn is_full(&self, most: usize) -> bool
        ensures full { result ≡ nat_le most (length self.now) }
    {
        if self.most < most {
            return false;
        }
        are_so_many(self.relations.as_slice(), most)
    }

    /// Inserts a tuple, if it is not there yet. If it is refused, the set is unchanged.
    pub(crate) fn insert(&mut self, tuple: Tuple) -> Result<(), Memory>
        ensures ok { OnOk result (self.new ≡ change self.old (Insert (fact_of tuple))) }
        ensures err { OnErr result (self.new ≡ self.old) }
    {
        let Some(most) = self.most.checked_add(1) else {
            return Err(Memory);
        };
        self.most = most;
        put(&mut self.relations, self.alloc, tuple)?;
        Ok(())
    }

    /// Whether the tuple is there. Its tuples stay the same.
    pub(crate) fn find(&mut self, tuple: &Tuple) -> Result<bool, Memory>
        ensures answer { IfOk result (λ there. there ≡ has self.old (fact_of tuple.now)) }
        ensures same { self.new ≡ self.old }
    {
        let there = seek(&mut self.relations, tuple)?;
        Ok(there)
    }

    /// The tuples in order, taken out of the set.
    pub(crate) fn into_list(self, alloc: Global) -> Result<TupleList, Memory>
        ensures tuples { IfOk result (λ list. map fact_of list.items ≡ self) }
    {
        let Base { relations, .. } = self;
        let mut tuples = Vec::new(alloc);
        for facts in relations {
            tuples.append(&mut facts.into_list(alloc)?.into_vec())?;
        }
        Ok(List::from_vec(tuples))
    }
}

// Whether the sets together have at least `most` tuples.
fn are_so_many(relations: &[RisingFacts], most: usize) -> bool
    ensures reached { result ≡ nat_le most (length (gathered relations.now)) }
{
    let mut left = most;
    for facts in relations {
        left = left.saturating_sub(facts.len());
    }
    left == 0
}

// Puts the tuple into the set of its relation, which is made if it does not exist yet.
fn put(relations: &mut Vec<RisingFacts>, alloc: Global, tuple: Tuple) -> Result<(), Memory>
    requires apart { AreApart 0 relations.old.items }
    ensures ok { OnOk result (gathered relations.new.items ≡
        change (gathered relations.old.items) (Insert (fact_of tuple))) }
    ensures err { OnErr result (gathered relations.new.items ≡ gathered relations.old.items) }
    ensures apart { AreApart 0 relations.new.items }
    ensures longer { length (gathered relations.new.items) ≤
        length (gathered relations.old.items) + 1 }
{
    let relation = tuple.relation as usize;
    reach(relations, alloc, relation)?;
    relations[relation].insert(tuple)?;
    Ok(())
}

// Makes the sets of the relations up to this one, if they do not exist yet.
fn reach(relations: &mut Vec<RisingFacts>, alloc: Global, relation: usize) -> Result<(), Memory>
    requires apart { AreApart 0 relations.old.items }
    ensures same { gathered relations.new.items ≡ gathered relations.old.items }
    ensures apart { AreApart 0 relations.new.items }
    ensures there { OnOk result (relation < length relations.new.items) }
{
    while relations.len() <= relation {
        relations.push(RisingFacts::new(alloc))?;
    }
    Ok(())
}

// Whether the tuple is in the set of its relation.
fn seek(relations: &mut Vec<RisingFacts>, tuple: &Tuple) -> Result<bool, Memory>
    requires apart { AreApart 0 relations.old.items }
    ensures answer { IfOk result
        (λ there. there ≡ has (gathered relations.old.items) (fact_of tuple.now)) }
    ensures same { relations.new.items ≡ relations.old.items }
{
    let relation = tuple.relation as usize;
    if relations.len() <= relation {
        return Ok(false);
    }
    let there = relations[relation].find(tuple)?;
    Ok(there)
}

//! An ordered set of tuples with an index on each column, and one on the nulls.
ghost use Rattle.std.specs.Prelude.{◌≡◌, [], true, not, length, map, filter, Some, IfOk, OnOk, OnErr, IfErr};
ghost use Rattle.def_chase.specs.Cursors.{is_beyond};
ghost use Rattle.def_chase.specs.Queries.{holds_null};
ghost use Rattle.def_chase.specs.Repository.{has, change, Insert, Delete, IsRepository};
ghost use Rattle.base_types.specs.Meanings.{fact_of};
ghost use Rattle.set_facts.specs.ByNull.{IsNullIndex, IsNullIndexBut, AddsHolder, AddsAtMostHolder, DropsHolder};
ghost use Rattle.set_facts.specs.Indexes.{IsIndex, IsIndexBut, AddsOne, AddsAtMostOne, DropsOne};
ghost use Rattle.set_facts.specs.Places.{is_inside};
ghost use Rattle.set_facts.specs.Runs.{run_of};

use crate::columns::Groups;
use crate::nulls::{drop_nulls, holders, index_nulls, keep_nulls};
use crate::plain::PlainFacts;
use crate::relations::{Columns, drop_out, keep, keeps, kept, values};
use crate::runs::Run;
use base_types::{Candidates, Column, Facts, Memory, OuterName, TryCopy, Tuple, TupleList, Value};
use indexmap::IndexMap;
use std::alloc::Global;
use std::collections::btree_set::Range;
use std::hash::BuildHasherDefault;
use std::marker::Model;

/// A set of tuples with two indexes: by relation, column and value, found by the value's hash, and by null, whatever attempt drew
/// it. Insertions, deletions and cursors take steps logarithmic in the set's size. `contains` searches only the tuples with the
/// same first value, which are mostly few. Each tuple is held once more for each of its columns and nulls. Contracts see the list
/// of its tuples, in order.
#[derive(Debug, Drop)]
pub struct IndexedFacts {
    all: PlainFacts,
    relations: Vec<Columns>,
    by_null: Groups,
    alloc: Global,
}

impl Model for IndexedFacts {
    ghost use Rattle.std.specs.Prelude.{List};
    ghost use Rattle.def_chase.specs.Values.{Fact};

    ghost Value = { List Fact };

    ghost use Rattle.def_chase.specs.Repository.{IsRepository};
    ghost use Rattle.set_facts.specs.ByNull.{IsNullIndex};
    ghost use Rattle.set_facts.specs.Indexes.{IsIndex};

    ghost view = { λ f. f.all };

    ghost invariant = { λ f.
        IsRepository f.all × IsIndex f.all f.relations.items × IsNullIndex f.all f.by_null };
}

impl IndexedFacts {
    /// The empty set.
    pub fn new(alloc: Global) -> IndexedFacts
        ensures empty { result ≡ [] }
    {
        IndexedFacts {
            all: PlainFacts::new(alloc),
            relations: Vec::new(alloc),
            by_null: IndexMap::with_hasher(alloc, BuildHasherDefault::new()),
            alloc,
        }
    }

    /// The same set, with an index. If it is refused, it hands the set back.
    pub fn of(alloc: Global, facts: PlainFacts) -> Result<IndexedFacts, (PlainFacts, Memory)>
        ensures same { IfOk result (λ indexed. indexed ≡ facts) }
        ensures given_back { IfErr result (λ refused. refused.0 ≡ facts) }
    {
        match index_both(alloc, &facts) {
            Ok(index) => {
                return Ok(IndexedFacts {
                    all: facts,
                    relations: index.0,
                    by_null: index.1,
                    alloc,
                });
            }
            Err(_) => return Err((facts, Memory)),
        }
    }

    /// The number of tuples.
    pub fn len(&self) -> usize
        ensures length { result ≡ length self.now }
    {
        self.all.len()
    }

    /// Inserts a tuple, and returns whether it is new. If it is refused, it hands the tuple back, and the set is unchanged.
    pub fn insert(&mut self, tuple: Tuple) -> Result<bool, (Tuple, Memory)>
        ensures changed { IfOk result (λ changed. changed ≡ not (has self.old (fact_of tuple))) }
        ensures ok { OnOk result (self.new ≡ change self.old (Insert (fact_of tuple))) }
        ensures given_back { IfErr result (λ refused. refused.0 ≡ tuple) }
        ensures err { OnErr result (self.new ≡ self.old) }
    {
        match keep_both(&mut self.relations, &mut self.by_null, self.alloc, &tuple) {
            Ok(()) => {}
            Err(_) => {
                take_back(&mut self.relations, &mut self.by_null, &self.all, &tuple);
                return Err((tuple, Memory));
            }
        }
        match self.all.insert(tuple) {
            Ok(added) => return Ok(added),
            Err(refused) => {
                take_back(
                    &mut self.relations,
                    &mut self.by_null,
                    &self.all,
                    &refused.0,
                );
                return Err(refused);
            }
        }
    }

    /// Removes a tuple, and returns whether it was there.
    pub fn remove(&mut self, tuple: &Tuple) -> bool
        ensures changed { result ≡ has self.old (fact_of tuple.now) }
        ensures after { self.new ≡ change self.old (Delete (fact_of tuple.now)) }
    {
        let there = self.all.remove(tuple);
        drop_both(&mut self.relations, &mut self.by_null, tuple);
        there
    }

    /// The tuples in order, taken out of the set.
    pub fn into_list(self, alloc: Global) -> Result<TupleList, Memory>
        ensures tuples { IfOk result (λ list. map fact_of list.items ≡ self) }
    {
        let IndexedFacts { all, .. } = self;
        all.into_list(alloc)
    }

    /// The tuples in order, as a run.
    pub fn run(&self) -> Run<'_>
        ensures all { run_of result ≡ self.now }
        ensures in_order { IsRepository self.now }
    {
        Run::Together(self.all.range(None))
    }

    /// The tuples that are above a tuple and below another one, in order.
    pub fn inside(&self, past: &Tuple, end: &Tuple) -> Range<'_, Tuple>
        requires forward { is_beyond (Some (fact_of past.now)) (fact_of end.now) ≡ true }
        ensures tuples { map fact_of result ≡
            filter (is_inside (fact_of past.now) (fact_of end.now)) self.now }
        ensures in_order { IsRepository self.now }
    {
        self.all.inside(past, end)
    }

    /// The tuples in order.
    pub fn list(&self, alloc: Global) -> Result<TupleList, Memory>
        ensures tuples { IfOk result (λ list. map fact_of list.items ≡ self.now) }
    {
        self.all.list(alloc)
    }
}

impl TryCopy for IndexedFacts {
    ghost use Rattle.std.specs.Prelude.{List};
    ghost use Rattle.def_chase.specs.Values.{Fact};

    ghost Meaning = { List Fact };

    ghost meaning = { λ D. D };

    fn copy(&self, alloc: Global) -> Result<IndexedFacts, Memory>
        ensures same { IfOk result (λ copy. copy ≡ self.now) }
    {
        let all = self.all.copy(alloc)?;
        Ok(IndexedFacts::of(alloc, all)?)
    }
}

impl Facts for IndexedFacts {
    ghost tuples = { λ D. D };

    fn is_in_order(&self) {
        let _ = &self.all;
    }

    fn contains(&self, tuple: &Tuple) -> bool {
        match tuple.values.get(0) {
            Some(value) => keeps(&self.relations, 0, value, tuple),
            None => self.all.contains(tuple),
        }
    }

    fn beyond(&self, past: Option<&Tuple>) -> Option<&Tuple> {
        self.all.beyond(past)
    }

    fn first(&self, relation: u16) -> Option<&Tuple> {
        self.all.first(relation)
    }

    fn after(&self, tuple: &Tuple) -> Option<&Tuple> {
        self.all.after(tuple)
    }

    fn scan(
        &self,
        relation: u16,
        column: u16,
        value: &Value,
        past: Option<&Tuple>,
    ) -> Option<&Tuple> {
        match kept(&self.relations, relation, column, value) {
            Some(group) => group.beyond(past),
            None => None,
        }
    }

    fn candidates(
        &self,
        relation: u16,
        column: Option<Column<'_>>,
        past: Option<&Tuple>,
    ) -> Candidates<'_> {
        match column {
            Some(column) => match kept(&self.relations, relation, column.number, column.value) {
                Some(group) => group.at_hand(past),
                None => Candidates::Absent,
            },
            None => self.all.relation(relation, past),
        }
    }

    fn holding(&self, name: OuterName, past: Option<&Tuple>) -> Option<&Tuple> {
        match holders(&self.by_null, name) {
            Some(group) => group.beyond(past),
            None => None,
        }
    }

    fn values(&self, relation: u16, column: u16) -> Option<&[Value]> {
        Some(values(&self.relations, relation, column))
    }
}

// Both indexes of all tuples of the set.
fn index_both(alloc: Global, facts: &PlainFacts) -> Result<(Vec<Columns>, Groups), Memory>
    ensures columns { IfOk result (λ index. IsIndex facts.now index.0.items) }
    ensures nulls { IfOk result (λ index. IsNullIndex facts.now index.1) }
    ensures in_order { IsRepository facts.now }
{
    let relations = index_all(alloc, facts)?;
    let by_null = index_nulls(alloc, facts)?;
    Ok((relations, by_null))
}

// The index of all tuples of the set.
fn index_all(alloc: Global, facts: &PlainFacts) -> Result<Vec<Columns>, Memory>
    ensures index { IfOk result (λ relations. IsIndex facts.now relations.items) }
    ensures in_order { IsRepository facts.now }
{
    let mut relations = Vec::new(alloc);
    for tuple in facts.iter() {
        keep(&mut relations, alloc, tuple)?;
    }
    Ok(relations)
}

// Keeps a copy of the tuple in the columns of its relation and at its nulls. If it is refused, some of these may keep the tuple;
// nothing else changes.
fn keep_both(
    relations: &mut Vec<Columns>,
    by_null: &mut Groups,
    alloc: Global,
    tuple: &Tuple,
) -> Result<(), Memory>
    ensures columns { OnOk result
        (AddsOne (fact_of tuple.now) relations.old.items relations.new.items) }
    ensures nulls { OnOk result (AddsHolder (λ u k. holds_null u k (fact_of tuple.now))
        (fact_of tuple.now) by_null.old by_null.new) }
    ensures some_columns { OnErr result
        (AddsAtMostOne (fact_of tuple.now) relations.old.items relations.new.items) }
    ensures some_nulls { OnErr result
        (AddsAtMostHolder (fact_of tuple.now) by_null.old by_null.new) }
{
    keep(relations, alloc, tuple)?;
    keep_nulls(by_null, alloc, tuple)
}

// Takes the tuple, and no other, out of the columns of its relation and away from its nulls.
fn drop_both(relations: &mut Vec<Columns>, by_null: &mut Groups, tuple: &Tuple)
    ensures columns { DropsOne (fact_of tuple.now) relations.old.items relations.new.items }
    ensures nulls { DropsHolder (λ u k. holds_null u k (fact_of tuple.now))
        (fact_of tuple.now) by_null.old by_null.new }
{
    drop_out(relations, tuple);
    drop_nulls(by_null, tuple);
}

// Makes the indexes those of `all` again, after at most this tuple was added to them.
fn take_back(relations: &mut Vec<Columns>, by_null: &mut Groups, all: &PlainFacts, tuple: &Tuple)
    requires { IsIndexBut all.now (fact_of tuple.now) relations.old.items ×
        IsNullIndexBut all.now (fact_of tuple.now) by_null.old }
    ensures columns { IsIndex all.now relations.new.items }
    ensures nulls { IsNullIndex all.now by_null.new }
{
    if !all.contains(tuple) {
        drop_both(relations, by_null, tuple);
    }
}

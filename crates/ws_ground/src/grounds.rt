//! What a run is over: the tuples, the names of their nulls, and what was written.
ghost use Rattle.std.specs.Prelude.{◌≡◌, ◌≤◌, map, length, drop, take, OnOk, IfSome, IfNone};
ghost use Rattle.base_types.specs.Contents.{changes_of};
ghost use Rattle.base_types.specs.Meanings.{change_of, fact_of};
ghost use Rattle.def_chase.specs.Repository.{Delete, Insert, apply, change};
ghost use Rattle.ws_ground.specs.Trails.{HasMade, IsPopped, HasGrown, IsBackTo, before, undoing};

use base_types::{Facts, Memory, Tuple, Write, WriteList};
use set_facts::IndexedFacts;
use std::alloc::Global;
use ws_names::Names;

/// The tuples, the names of nulls, the number of the last op, and the trail: each write since the beginning that changed
/// something, in order, so that it can be taken back.
#[derive(Drop)]
pub struct Ground {
    pub facts: IndexedFacts,
    pub names: Names,
    pub last: u32,
    pub trail: WriteList,
}

/// A place to which a ground can be taken back.
#[derive(Clone, Copy)]
pub struct Mark {
    pub last: u32,
    pub names: usize,
    pub trail: usize,
}

impl Ground {
    /// A ground with these tuples and names, before any op.
    pub fn new(alloc: Global, facts: IndexedFacts, names: Names) -> Ground
        ensures facts { result.facts ≡ facts }
        ensures names { result.names ≡ names }
        ensures last { result.last ≡ 0 }
    {
        Ground {
            facts,
            names,
            last: 0,
            trail: WriteList::new(alloc),
        }
    }

    /// The mark of the present moment.
    pub fn mark(&self) -> Mark
        ensures trail { result.trail ≡ length self.now.trail.items }
        ensures names { result.names ≡ length self.now.names }
        ensures last { result.last ≡ self.now.last }
    {
        Mark {
            last: self.last,
            names: self.names.len(),
            trail: self.trail.len(),
        }
    }

    /// Takes back what was done since the mark.
    pub fn back_to(&mut self, mark: Mark) -> Result<(), Memory>
        ensures back { OnOk result (IsBackTo mark.trail self.old self.new) }
        ensures names { OnOk result (self.new.names ≡ take mark.names self.old.names) }
        ensures last { OnOk result (self.new.last ≡ mark.last) }
    {
        take_back(&mut self.facts, &mut self.trail, mark.trail)?;
        self.names.keep(mark.names);
        self.last = mark.last;
        Ok(())
    }

    /// Makes the writes in turn, and adds each that changes something to the trail. After a refusal, some of them may be made.
    pub fn make(&mut self, writes: WriteList) -> Result<(), Memory>
        ensures grown { HasGrown self.old self.new }
        ensures made { OnOk result (self.new.facts ≡ apply self.old.facts (changes_of writes)) }
        ensures names { self.new.names ≡ self.old.names }
        ensures last { self.new.last ≡ self.old.last }
    {
        make_all(&mut self.facts, &mut self.trail, writes)
    }
}

// Takes back the writes after the first `count`, the last of them first.
#[tactic(auto, using(crate::proofs::Trailing::back_on, crate::proofs::Trailing::kept_on, crate::proofs::Trailing::fewer_left, crate::proofs::Trailing::back_all, crate::proofs::Trailing::kept_all))]
fn take_back(facts: &mut IndexedFacts, trail: &mut WriteList, count: usize) -> Result<(), Memory>
    ensures facts { OnOk result
        (facts.new ≡ before (map change_of (drop count trail.old.items)) facts.old) }
    ensures trail { OnOk result (trail.new.items ≡ take count trail.old.items) }
{
    'writes: while let Some(write) = pop_after(trail, count) {
        undo(facts, write)?;
    }
    Ok(())
}

// Takes the last write from the trail if there are more than `count`.
fn pop_after(trail: &mut WriteList, count: usize) -> Option<Write>
    ensures some { IfSome result (IsPopped count trail.old.items trail.new.items) }
    ensures none { IfNone result (length trail.old.items ≤ count) }
    ensures same { IfNone result (trail.new.items ≡ trail.old.items) }
{
    if trail.len() <= count {
        return None;
    }
    match trail.pop() {
        Some(write) => Some(write),
        None => None,
    }
}

// Takes back one write, which changed something.
fn undo(facts: &mut IndexedFacts, write: Write) -> Result<(), Memory>
    ensures undone { OnOk result (facts.new ≡ change facts.old (undoing (change_of write))) }
{
    match write {
        Write::Insert(tuple) => {
            facts.remove(&tuple);
        }
        Write::Delete(tuple) => {
            facts.insert(tuple)?;
        }
    }
    Ok(())
}

// Makes the writes in turn, and adds each that changes something to the trail.
#[tactic(auto, using(crate::proofs::Trailing::none_made, crate::proofs::Trailing::more_made))]
fn make_all(
    facts: &mut IndexedFacts,
    trail: &mut WriteList,
    writes: WriteList,
) -> Result<(), Memory>
    ensures made { HasMade trail.old.items facts.old trail.new.items facts.new }
    ensures all { OnOk result (facts.new ≡ apply facts.old (changes_of writes)) }
{
    'writes: for write in writes.into_vec() {
        make_one(facts, trail, write)?;
    }
    Ok(())
}

fn make_one(facts: &mut IndexedFacts, trail: &mut WriteList, write: Write) -> Result<(), Memory>
    ensures made { HasMade trail.old.items facts.old trail.new.items facts.new }
    ensures written { OnOk result (facts.new ≡ change facts.old (change_of write)) }
{
    match write {
        Write::Insert(tuple) => insert(facts, trail, tuple),
        Write::Delete(tuple) => remove(facts, trail, tuple),
    }
}

#[tactic(auto, using(crate::proofs::Trailing::none_made, crate::proofs::Trailing::came, crate::proofs::Trailing::came_not))]
fn insert(facts: &mut IndexedFacts, trail: &mut WriteList, tuple: Tuple) -> Result<(), Memory>
    ensures made { HasMade trail.old.items facts.old trail.new.items facts.new }
    ensures written { OnOk result (facts.new ≡ change facts.old (Insert (fact_of tuple))) }
{
    // The call proves that the set is in order.
    facts.is_in_order();
    trail.reserve(1)?;
    let same = tuple.share()?;
    if facts.insert(tuple)? {
        trail.push(Write::Insert(same))?;
    }
    Ok(())
}

#[tactic(auto, using(crate::proofs::Trailing::none_made, crate::proofs::Trailing::went, crate::proofs::Trailing::went_not))]
fn remove(facts: &mut IndexedFacts, trail: &mut WriteList, tuple: Tuple) -> Result<(), Memory>
    ensures made { HasMade trail.old.items facts.old trail.new.items facts.new }
    ensures written { OnOk result (facts.new ≡ change facts.old (Delete (fact_of tuple))) }
{
    facts.is_in_order();
    trail.reserve(1)?;
    if facts.remove(&tuple) {
        trail.push(Write::Delete(tuple))?;
    }
    Ok(())
}

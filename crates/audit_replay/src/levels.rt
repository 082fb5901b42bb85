//! A set of tuples with levels: it goes up and down over writes.
ghost use Rattle.std.specs.Prelude.{◌≡◌, ◌+◌, ◌-◌, ◌≤◌, ◌∷◌, [], suc, length, drop, map, reverse, IfOk, OnOk, OnErr};
ghost use Rattle.base_types.specs.Meanings.{change_of};
ghost use Rattle.def_chase.specs.Repository.{apply, change};
ghost use Rattle.audit_replay.specs.Levels.{AreAsMany, AreOneFewer, AreStill, LeadsBack, raised, top};

use base_types::{Facts, Memory, TryCopy, Write, WriteList};
use set_facts::IndexedFacts;
use std::alloc::Global;
use std::marker::Model;

/// A set of tuples with its lower levels: each level is the one below it with writes made. Contracts see the levels from the
/// uppermost one down to the lowest; there is at least one.
#[derive(Debug, Drop)]
pub struct Levels {
    facts: IndexedFacts,
    // For each level but the lowest, the writes that lead from it to the one below, to be made from the last to the first.
    back: Vec<WriteList>,
}

impl Model for Levels {
    ghost use Rattle.std.specs.Prelude.{List, map, reverse};
    ghost use Rattle.def_chase.specs.Values.{Fact};
    ghost use Rattle.base_types.specs.Contents.{changes_of};
    ghost use Rattle.audit_replay.specs.Levels.{descended};

    ghost Value = { List (List Fact) };

    ghost view = { λ l. descended l.facts (reverse (map changes_of l.back.items)) };
}

impl Levels {
    /// A set with one level.
    pub fn new(alloc: Global, facts: IndexedFacts) -> Levels
        ensures one { result ≡ facts ∷ [] }
    {
        Levels {
            facts,
            back: Vec::new(alloc),
        }
    }

    /// The uppermost level.
    pub fn facts(&self) -> &IndexedFacts
        ensures top { result.now ≡ top self.now }
    {
        &self.facts
    }

    /// The number of levels above the lowest.
    pub fn height(&self) -> usize
        ensures height { length self.now ≡ suc result }
    {
        self.back.len()
    }

    /// Puts one more level above the others: the uppermost one with these writes made. After an error the levels are of no use
    /// any more: their number is as before, but their tuples are unknown.
    pub fn rise(&mut self, alloc: Global, writes: &[Write]) -> Result<(), Memory>
        ensures raised { OnOk result (self.new ≡ raised self.old (map change_of writes.now)) }
        ensures err { OnErr result (AreAsMany self.old self.new) }
    {
        let back = make_all(alloc, &mut self.facts, writes)?;
        self.back.push(back)?;
        Ok(())
    }

    /// Takes the uppermost level away, which must not be the lowest. After an error the levels are of no use any more: there is
    /// one fewer, but their tuples are unknown.
    pub fn sink(&mut self) -> Result<(), Memory>
        requires above { 2 ≤ length self.old }
        ensures sunk { OnOk result (self.new ≡ drop 1 self.old) }
        ensures err { OnErr result (AreOneFewer self.old self.new) }
    {
        let Some(back) = self.back.pop() else {
            return Ok(());
        };
        take_all_back(&mut self.facts, back)?;
        Ok(())
    }

    /// Takes levels away until `height` are left above the lowest. After an error the levels are of no use any more: at least
    /// `height` are left above the lowest, but their tuples are unknown.
    pub fn sink_to(&mut self, height: usize) -> Result<(), Memory>
        requires above { height + 1 ≤ length self.old }
        ensures sunk { OnOk result
            (self.new ≡ drop (length self.old - (height + 1)) self.old) }
        ensures err { OnErr result (AreStill height self.old self.new) }
    {
        while self.height() > height {
            self.sink()?;
        }
        Ok(())
    }
}

// Makes the writes in order, and gives the writes that take them back, which are to be made from the last to the first.
fn make_all(alloc: Global, facts: &mut IndexedFacts, writes: &[Write]) -> Result<WriteList, Memory>
    ensures made { OnOk result (facts.new ≡ apply facts.old (map change_of writes.now)) }
    ensures back { IfOk result (λ back.
        apply facts.new (reverse (map change_of back.items)) ≡ facts.old) }
{
    let mut back = WriteList::new(alloc);
    for write in writes {
        make(alloc, facts, write, &mut back)?;
    }
    Ok(back)
}

// Makes the writes, from the last to the first.
fn take_all_back(facts: &mut IndexedFacts, back: WriteList) -> Result<(), Memory>
    ensures made { OnOk result (facts.new ≡ apply facts.old (reverse (map change_of back.items))) }
{
    let mut left = back;
    while let Some(write) = left.pop() {
        take_back(facts, write)?;
    }
    Ok(())
}

// Makes the write, and if it changes anything, appends the write that takes it back to the others.
fn make(
    alloc: Global,
    facts: &mut IndexedFacts,
    write: &Write,
    back: &mut WriteList,
) -> Result<(), Memory>
    ensures made { OnOk result (facts.new ≡ change facts.old (change_of write.now)) }
    ensures back { OnOk result (LeadsBack facts.old back.old.items facts.new back.new.items) }
{
    // The contract of this call says that the set is in order.
    facts.is_in_order();
    match write {
        Write::Insert(tuple) => {
            if facts.insert(tuple.copy(alloc)?)? {
                back.push(Write::Delete(tuple.copy(alloc)?))?;
            }
        }
        Write::Delete(tuple) => {
            if facts.remove(tuple) {
                back.push(Write::Insert(tuple.copy(alloc)?))?;
            }
        }
    }
    Ok(())
}

// Makes the write.
fn take_back(facts: &mut IndexedFacts, write: Write) -> Result<(), Memory>
    ensures made { OnOk result (facts.new ≡ change facts.old (change_of write)) }
{
    match write {
        Write::Insert(tuple) => {
            facts.insert(tuple)?;
        }
        Write::Delete(tuple) => {
            facts.remove(&tuple);
        }
    }
    Ok(())
}

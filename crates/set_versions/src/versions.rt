//! The versions themselves.
ghost use Rattle.std.specs.Prelude.{◌≡◌, ◌&&◌, cond, not, [], ◌∷◌, length, map, IfSome, IfOk, OnOk, OnErr};
ghost use Rattle.base_types.specs.Meanings.{fact_of, change_of};
ghost use Rattle.set_versions.specs.Chains.{AreMarks};
ghost use Rattle.set_versions.specs.Marked.{is_based, no_marks};
ghost use Rattle.set_versions.specs.Standing.{AreKept, StandFor, Published, Retracted, is_left, known_at};
ghost use Rattle.def_chase.specs.Repository.{has};
ghost use Rattle.def_chase.specs.Values.{Fact, same_fact};
ghost use Rattle.set_versions.specs.Touches.{touched_at, written_at, published_at, unwritten_at, retracted_at};
ghost use Rattle.set_versions.specs.Trails.{no_trails};

use crate::below::Below;
use crate::handles::Handle;
use crate::marks::{Marks, Touch};
use crate::tables::Table;
use crate::taken::Taken;
use base_tree::Share;
use base_types::{Facts, Tuple, Write};
use def_memory::Memory;
use set_facts::IndexedFacts;
use std::alloc::Global;
use std::marker::Model;
use std::sync::Arc;

/// A base, and the writes of updates by number. The base is never changed and never copied. A table has the marks of the tuples
/// that updates wrote, and replaces the base for these. Contracts see a `Kept`; `StandFor` says what it means.
#[derive(Drop)]
pub struct Versions {
    base: Arc<IndexedFacts>,
    taken: Taken,
    table: Table,
}

impl Model for Versions {
    ghost use Rattle.set_versions.specs.Standing.{AreKept, Kept};

    ghost Value = { Kept };

    ghost view = { λ v. record { base = v.base.value; taken = v.taken; rows = v.table } };

    ghost invariant = { λ v. AreKept (record {
      base = v.base.value;
      taken = v.taken;
      rows = v.table;
    }) };
}

impl Versions {
    /// The versions of a base that no update has written to.
    pub fn of(alloc: Global, base: IndexedFacts) -> Result<Versions, Memory>
        ensures base { IfOk result (λ versions. StandFor versions base no_trails) }
    {
        // The set promises that it is in order.
        base.is_in_order();
        match Arc::new(alloc, base) {
            Ok(base) => Ok(Versions {
                base,
                taken: Taken::none(),
                table: Table::none(),
            }),
            Err(_) => Err(Memory),
        }
    }

    /// Another handle to the same versions, in constant time.
    pub fn share(&self) -> Result<Versions, Memory>
        ensures same { IfOk result (λ copy. copy ≡ self.now) }
    {
        Ok(Versions {
            base: Arc::try_clone(&self.base)?,
            taken: self.taken.share()?,
            table: self.table.share()?,
        })
    }

    // Another handle to the versions. It takes the index of the table away from this one, so that the versions that replace these
    // can change it in place.
    fn lend(&mut self) -> Result<Versions, Memory>
        ensures same { IfOk result (λ versions. versions ≡ self.old) }
        ensures kept { self.new ≡ self.old }
    {
        let base = Arc::try_clone(&self.base)?;
        let taken = self.taken.share()?;
        let table = self.table.lend()?;
        Ok(Versions { base, taken, table })
    }

    /// The number of tuples in the base.
    pub fn base_len(&self) -> usize
        ensures length { result ≡ length self.now.base }
    {
        self.base.len()
    }

    /// The number of tuples that have a row in the table.
    pub fn rows_len(&self) -> usize
        ensures length { result ≡ length self.now.rows }
    {
        self.table.len()
    }

    /// Adds writes after those of the update. If it is refused, nothing changes.
    pub fn publish(&mut self, alloc: Global, number: u32, writes: &[Write]) -> Result<(), Memory>
        ensures ok { OnOk result (Published number (map change_of writes.now) self.old self.new) }
        ensures err { OnErr result (self.new ≡ self.old) }
    {
        if writes.is_empty() {
            return Ok(());
        }
        if let Some(write) = alone(writes) {
            self.write(alloc, number, write)?;
            return Ok(());
        }
        let new = with_writes(self.lend()?, alloc, number, writes)?;
        *self = new;
        Ok(())
    }

    /// Takes back all writes of the update, which must be `writes`. If it is refused, nothing changes.
    pub fn retract(&mut self, alloc: Global, number: u32, writes: &[Write]) -> Result<(), Memory>
        ensures ok { OnOk result (Retracted number (map change_of writes.now) self.old self.new) }
        ensures err { OnErr result (self.new ≡ self.old) }
    {
        let new = without_writes(self.lend()?, alloc, number, writes)?;
        *self = new;
        Ok(())
    }

    /// The view that the update has of the versions.
    pub fn below(&self, number: u32) -> Below<'_>
        ensures versions { result.versions.now ≡ self.now }
        ensures number { result.number ≡ number }
    {
        Below {
            versions: self,
            number,
        }
    }

    // The base.
    pub(crate) fn base(&self) -> &IndexedFacts
        ensures base { result.now ≡ self.now.base }
        ensures kept { AreKept self.now }
    {
        &self.base
    }

    // The tuples of the base whose marks the table holds in its place.
    pub(crate) fn taken(&self) -> &Taken
        ensures taken { result.now ≡ self.now.taken }
        ensures kept { AreKept self.now }
    {
        &self.taken
    }

    // The tuples that updates wrote, with their marks.
    pub(crate) fn table(&self) -> &Table
        ensures rows { result.now ≡ self.now.rows }
    {
        &self.table
    }

    // Whether the base has the tuple and it is not taken.
    pub(crate) fn has_left(&self, tuple: &Tuple) -> bool
        ensures left { result ≡ is_left self.now (fact_of tuple.now) }
        ensures kept { AreKept self.now }
    {
        self.base.contains(tuple) && !self.taken.contains(tuple)
    }

    // The marks of the tuple, with a handle to it.
    fn known(&self, in_base: bool, tuple: &Tuple) -> Result<(Handle, Marks), Memory>
        requires in_base { in_base ≡ has self.now.base (fact_of tuple.now) }
        ensures tuple { IfOk result (λ e. fact_of e.0 ≡ fact_of tuple.now) }
        ensures marks { IfOk result (λ e. e.1 ≡ known_at self.now (fact_of tuple.now)) }
        ensures in_order { IfOk result (λ e. AreMarks e.1) }
    {
        if in_base && !self.taken.contains(tuple) {
            return Ok((Handle::new(tuple.share()?), Marks::based()));
        }
        self.table.entry(tuple)
    }

    // Sets the marks of the tuple. If it is refused, nothing changes.
    fn put(&mut self, alloc: Global, in_base: bool, key: Handle, marks: Marks) -> Result<(), Memory>
        requires in_base { in_base ≡ has self.old.base (fact_of key) }
        requires in_order { AreMarks marks }
        ensures known { OnOk result ((t : Fact)
            → known_at self.new t ≡ cond (same_fact t (fact_of key)) marks (known_at self.old t)) }
        ensures kept { OnOk result (AreKept self.new) }
        ensures err { OnErr result (self.new ≡ self.old) }
    {
        let (takes, told) = told_of(in_base, marks);
        let taken = self.taken.share()?.set(alloc, &key, takes)?;
        self.table.put(alloc, key, told)?;
        self.taken = taken;
        Ok(())
    }

    // Changes the marks of the tuple. If it is refused, nothing changes.
    fn touch(&mut self, alloc: Global, tuple: &Tuple, touch: Touch) -> Result<(), Memory>
        ensures known { OnOk result ((t : Fact)
            → known_at self.new t ≡ touched_at touch (fact_of tuple.now) t (known_at self.old t)) }
        ensures kept { OnOk result (AreKept self.new) }
        ensures err { OnErr result (self.new ≡ self.old) }
    {
        let in_base = self.base.contains(tuple);
        let (key, mut marks) = self.known(in_base, tuple)?;
        marks.touch(alloc, touch)?;
        self.put(alloc, in_base, key, marks)?;
        Ok(())
    }

    // Adds this write of the update. If it is refused, nothing changes.
    fn write(&mut self, alloc: Global, number: u32, write: &Write) -> Result<(), Memory>
        ensures known { OnOk result ((t : Fact) → known_at self.new t ≡
            written_at number (change_of write.now) t (known_at self.old t)) }
        ensures kept { OnOk result (AreKept self.new) }
        ensures err { OnErr result (self.new ≡ self.old) }
    {
        match write {
            Write::Insert(tuple) => self.touch(alloc, tuple, Touch::Mark(number, true)),
            Write::Delete(tuple) => self.touch(alloc, tuple, Touch::Mark(number, false)),
        }
    }
}

// Whether the tuple must be taken, and the marks that the table then holds: none if the marks only say that the base has the
// tuple.
fn told_of(in_base: bool, marks: Marks) -> (bool, Marks)
    requires in_order { AreMarks marks }
    ensures takes { result.0 ≡ (in_base && not (in_base && is_based marks)) }
    ensures tells { result.1 ≡ cond (in_base && is_based marks) no_marks marks }
    ensures in_order { AreMarks result.1 }
{
    if !in_base {
        return (false, marks);
    }
    if marks.is_based() {
        return (false, Marks::new());
    }
    (true, marks)
}

// The write, if there is just one.
fn alone(writes: &[Write]) -> Option<&Write>
    ensures alone { IfSome result (λ w. map change_of writes.now ≡ change_of w.now ∷ []) }
{
    let (write, rest) = writes.split_first()?;
    if rest.is_empty() { Some(write) } else { None }
}

// The versions with these writes of the update.
fn with_writes(
    mut versions: Versions,
    alloc: Global,
    number: u32,
    writes: &[Write],
) -> Result<Versions, Memory>
    requires kept { AreKept versions }
    ensures known { IfOk result (λ new.
        (t : Fact)
        → known_at new t ≡ published_at number (map change_of writes.now) t (known_at versions t)) }
    ensures kept { IfOk result AreKept }
{
    for write in writes {
        versions.write(alloc, number, write)?;
    }
    Ok(versions)
}

// The versions without these writes of the update.
fn without_writes(
    mut versions: Versions,
    alloc: Global,
    number: u32,
    writes: &[Write],
) -> Result<Versions, Memory>
    requires kept { AreKept versions }
    ensures known { IfOk result (λ new.
        (t : Fact)
        → known_at new t ≡ retracted_at number (map change_of writes.now) t (known_at versions t)) }
    ensures kept { IfOk result AreKept }
{
    for write in writes {
        take_back(&mut versions, alloc, number, write)?;
    }
    Ok(versions)
}

// Takes this write of the update back.
fn take_back(
    versions: &mut Versions,
    alloc: Global,
    number: u32,
    write: &Write,
) -> Result<(), Memory>
    ensures known { OnOk result ((t : Fact) → known_at versions.new t ≡
        unwritten_at number (change_of write.now) t (known_at versions.old t)) }
    ensures kept { OnOk result (AreKept versions.new) }
{
    match write {
        Write::Insert(tuple) => versions.touch(alloc, tuple, Touch::Unmark(number)),
        Write::Delete(tuple) => versions.touch(alloc, tuple, Touch::Unmark(number)),
    }
}

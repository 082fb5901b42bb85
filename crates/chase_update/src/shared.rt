//! The writes of an attempt, if copies of it share them.
ghost use Rattle.std.specs.Prelude.{◌≡◌, map, IfOk, OnOk};
ghost use Rattle.base_types.specs.Contents.{changes_of};
ghost use Rattle.base_types.specs.Listed.{Listed};
ghost use Rattle.base_types.specs.Meanings.{change_of};
ghost use Rattle.base_types.specs.declared.updates.Write.{Write as WriteOfProgram};
ghost use Rattle.chase_update.specs.Firsts.{HasFirst};
ghost use mathlib.Core.List.{IsPrefix};

use base_types::{Memory, TryCopy, Write, WriteList};
use std::alloc::Global;
use std::marker::Model;
use std::sync::Arc;

/// The writes of an attempt as a list that copies of it share. There may be a second list, which lacks only the last of the
/// writes: if the attempt makes more writes, it goes on in that list. Contracts see the list of all.
#[derive(Debug, Drop)]
pub(crate) struct SharedWrites {
    all: Arc<WriteList>,
    first: Option<Arc<WriteList>>,
}

impl Model for SharedWrites {
    ghost use Rattle.base_types.specs.Listed.{Listed};
    ghost use Rattle.base_types.specs.declared.updates.Write.{Write};
    ghost use Rattle.chase_update.specs.Firsts.{HasFirst};

    ghost Value = { Listed Write };

    ghost view = { λ s. s.all.value };

    ghost invariant = { λ s. HasFirst s.first s.all.value };
}

impl SharedWrites {
    /// The writes of the list.
    pub(crate) fn of(all: Arc<WriteList>) -> SharedWrites
        ensures same { result ≡ all.value }
    {
        SharedWrites { all, first: None }
    }

    /// The writes as a list.
    pub(crate) fn list(&self) -> &WriteList
        ensures same { result.now ≡ self.now }
    {
        &self.all
    }

    /// Another handle to the same writes.
    pub(crate) fn copy(&self) -> Result<SharedWrites, Memory>
        ensures same { IfOk result (λ copy. copy ≡ self.now) }
    {
        let all = Arc::try_clone(&self.all)?;
        Ok(SharedWrites { all, first: None })
    }

    /// Another handle to the same writes, which takes over the list of the first ones, if there is one.
    pub(crate) fn branch(&mut self) -> Result<SharedWrites, Memory>
        ensures same { IfOk result (λ branch. branch ≡ self.old) }
        ensures stays { self.new ≡ self.old }
    {
        let all = Arc::try_clone(&self.all)?;
        let first = self.first.take();
        Ok(SharedWrites { all, first })
    }

    /// The writes as a list that nobody else shares: the list of the first ones, if nobody else shares it, with copies of the
    /// writes that it lacks.
    pub(crate) fn alone(&mut self, alloc: Global) -> Result<WriteList, Memory>
        ensures same { IfOk result (λ writes. changes_of writes ≡ changes_of self.old) }
        ensures stays { self.new ≡ self.old }
    {
        let mut writes = unshared(alloc, self.first.take());
        catch_up(&mut writes, alloc, self.list().as_slice())?;
        Ok(writes)
    }

    /// Keeps the list of `first`, which must be the first of the writes, if these are fewer.
    pub(crate) fn keep(&mut self, first: &SharedWrites) -> Result<(), Memory>
        requires first { IsPrefix (changes_of first.now) (changes_of self.old) }
        ensures stays { self.new ≡ self.old }
    {
        if first.list().len() < self.list().len() {
            self.first = Some(Arc::try_clone(&first.all)?);
        }
        Ok(())
    }
}

// The list, if nobody else shares it; otherwise an empty one.
fn unshared(alloc: Global, first: Option<Arc<WriteList>>) -> WriteList
    ensures first { (all : Listed WriteOfProgram) →
        HasFirst first all → IsPrefix (changes_of result) (changes_of all) }
{
    let Some(first) = first else {
        return WriteList::new(alloc);
    };
    match Arc::into_inner(first) {
        Some(writes) => writes,
        None => WriteList::new(alloc),
    }
}

// Adds copies of the writes that the list lacks at its end, and makes room for one more.
fn catch_up(first: &mut WriteList, alloc: Global, all: &[Write]) -> Result<(), Memory>
    requires first { IsPrefix (changes_of first.old) (map change_of all.now) }
    ensures all { OnOk result (changes_of first.new ≡ map change_of all.now) }
{
    let rest = &all[first.len()..];
    first.reserve(rest.len().saturating_add(1))?;
    for write in rest {
        first.push(write.copy(alloc)?)?;
    }
    Ok(())
}

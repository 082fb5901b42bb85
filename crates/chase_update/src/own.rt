//! The writes of an attempt, which copies of it share.
ghost use Rattle.std.specs.Prelude.{◌≡◌, [], ◌++◌, IfOk, OnOk, OnErr};
ghost use Rattle.base_types.specs.Contents.{changes_of};
ghost use Rattle.base_types.specs.Meanings.{choice_of, operation_of};
ghost use Rattle.chase_query.specs.Meanings.{reply_of};
ghost use Rattle.chase_repair.specs.Stands.{wanted, TakesReply, TakesChoice};
ghost use Rattle.chase_repair.specs.Transitions.{AsksAs, HasAnswered, HasChosen};
ghost use mathlib.Core.List.{IsPrefix};
ghost use Rattle.chase_update.specs.PointMeanings.{HasWritten, IsWriting, tuple_at};

use crate::points::Point;
use crate::shared::SharedWrites;
use crate::writing;
use base_limits::Mappings;
use base_types::{Choice, Memory, Operation, TryCopy, WriteList};
use chase_query::Reply;
use chase_repair::{Progress, Repair};
use std::alloc::Global;
use std::marker::Model;
use std::mem;
use std::sync::Arc;

/// The writes that an attempt has made, in order. Copies share them until one of them makes more. Contracts see the list.
#[derive(Debug, Drop)]
pub(crate) struct Own {
    held: Held,
}

// A list of one attempt, or one that copies share.
#[derive(Debug, Drop)]
pub(crate) enum Held {
    Alone(WriteList),
    Shared(SharedWrites),
}

impl Model for Own {
    ghost use Rattle.base_types.specs.Listed.{Listed};
    ghost use Rattle.base_types.specs.declared.updates.Write.{Write};
    ghost use Rattle.chase_update.specs.Owning.{held_in};

    ghost Value = { Listed Write };

    ghost view = { λ o. held_in o.held };
}

impl Own {
    /// No writes.
    pub(crate) fn none(alloc: Global) -> Own
        ensures none { result.items ≡ [] }
    {
        Own {
            held: Held::Alone(WriteList::new(alloc)),
        }
    }

    /// The writes as a list.
    pub(crate) fn list(&self) -> &WriteList
        ensures same { result.now ≡ self.now }
    {
        match &self.held {
            Held::Alone(writes) => writes,
            Held::Shared(writes) => writes.list(),
        }
    }

    /// The writes as a list; it consumes the value.
    pub(crate) fn into_list(self, alloc: Global) -> Result<WriteList, Memory>
        ensures same { IfOk result (λ writes. changes_of writes ≡ changes_of self) }
    {
        match self.held {
            Held::Alone(writes) => Ok(writes),
            Held::Shared(writes) => writes.list().copy(alloc),
        }
    }

    /// Another handle to the same writes: it shares them if they are shared already, otherwise it copies them.
    pub(crate) fn copy(&self, alloc: Global) -> Result<Own, Memory>
        ensures same { IfOk result (λ copy. changes_of copy ≡ changes_of self.now) }
    {
        match &self.held {
            Held::Alone(writes) => Ok(Own {
                held: Held::Alone(writes.copy(alloc)?),
            }),
            Held::Shared(writes) => Ok(Own {
                held: Held::Shared(writes.copy()?),
            }),
        }
    }

    /// Another handle to the same writes, which takes over the list that these keep for further writes.
    pub(crate) fn branch(&mut self, alloc: Global) -> Result<Own, Memory>
        ensures same { IfOk result (λ branch. changes_of branch ≡ changes_of self.old) }
        ensures stays { self.new ≡ self.old }
    {
        match &mut self.held {
            Held::Alone(writes) => Ok(Own {
                held: Held::Alone(writes.copy(alloc)?),
            }),
            Held::Shared(writes) => Ok(Own {
                held: Held::Shared(writes.branch()?),
            }),
        }
    }

    /// Lets copies share the writes from now on. If both are shared already, the list of the first ones may be kept. The writes
    /// stay the same.
    pub(crate) fn share(&mut self, alloc: Global, first: &Own) -> Result<(), Memory>
        requires first { IsPrefix (changes_of first.now) (changes_of self.old) }
        ensures same { self.new.items ≡ self.old.items }
    {
        self.share_all(alloc)?;
        self.keep(first)
    }

    // Lets copies share the writes from now on.
    fn share_all(&mut self, alloc: Global) -> Result<(), Memory>
        ensures same { self.new.items ≡ self.old.items }
    {
        let Held::Alone(writes) = &mut self.held else {
            return Ok(());
        };
        let writes = mem::replace(writes, WriteList::new(alloc));
        match Arc::new(alloc, writes) {
            Ok(shared) => {
                self.held = Held::Shared(SharedWrites::of(shared));
                Ok(())
            }
            Err(refused) => {
                self.held = Held::Alone(refused.value);
                Err(Memory)
            }
        }
    }

    // Keeps the list of the first of the writes, if both are shared.
    fn keep(&mut self, first: &Own) -> Result<(), Memory>
        requires first { IsPrefix (changes_of first.now) (changes_of self.old) }
        ensures same { self.new.items ≡ self.old.items }
    {
        let Held::Shared(first) = &first.held else {
            return Ok(());
        };
        match &mut self.held {
            Held::Alone(_) => Ok(()),
            Held::Shared(writes) => writes.keep(first),
        }
    }

    // The writes as a list, a copy if they are shared. The caller must put the list back.
    fn take(&mut self, alloc: Global) -> Result<WriteList, Memory>
        ensures taken { IfOk result (λ writes. changes_of writes ≡ changes_of self.old) }
        ensures kept { OnErr result (self.new ≡ self.old) }
    {
        match &mut self.held {
            Held::Alone(writes) => Ok(mem::replace(writes, WriteList::new(alloc))),
            Held::Shared(writes) => writes.alone(alloc),
        }
    }

    /// Adds the writes at the end. If it is refused, nothing changes.
    pub(crate) fn append(&mut self, alloc: Global, writes: WriteList) -> Result<(), Memory>
        ensures ok { OnOk result (changes_of self.new ≡ changes_of self.old ++ changes_of writes) }
        ensures err { OnErr result (changes_of self.new ≡ changes_of self.old) }
    {
        if writes.is_empty() {
            return Ok(());
        }
        let mut own = self.take(alloc)?;
        let made = chase_repair::append(alloc, &mut own, writes);
        self.held = Held::Alone(own);
        made
    }

    /// An insertion writes the tuple of the query if it is not there, a deletion if it is. A look comes next. If it is refused,
    /// everything is unchanged.
    pub(crate) fn write(
        &mut self,
        alloc: Global,
        operation: &Operation,
        point: &mut Point,
        there: bool,
    ) -> Result<(), Memory>
        requires { IsWriting point.old }
        ensures written { OnOk result
            (HasWritten (operation_of operation.now) (tuple_at point.old) there self.old self.new) }
        ensures look { OnOk result (point.new ≡ Point.Look) }
        ensures stays { OnErr result (point.new ≡ point.old) }
        ensures own { OnErr result (changes_of self.new ≡ changes_of self.old) }
    {
        let mut own = self.take(alloc)?;
        let made = writing::write(operation, point, &mut own, there);
        self.held = Held::Alone(own);
        made
    }

    /// Gives the repair the answer to its query, as `Repair::answer` says, and adds its writes at the end.
    pub(crate) fn answer(
        &mut self,
        alloc: Global,
        repair: &mut Repair,
        answer: &Reply,
        mappings: &Mappings<'_>,
    ) -> Result<Progress, Memory>
        requires { TakesReply mappings.now (wanted repair.old) (reply_of answer.now) }
        ensures step { IfOk result
            (HasAnswered mappings.now answer.now self.old repair.old self.new repair.new) }
        ensures asks { IfOk result (AsksAs repair.new) }
        ensures err { OnErr result (repair.new ≡ repair.old) }
        ensures own { OnErr result (changes_of self.new ≡ changes_of self.old) }
    {
        match &mut self.held {
            Held::Alone(own) => repair.answer(alloc, own, answer, mappings),
            Held::Shared(shared) => {
                let mut own = shared.alone(alloc)?;
                let progress = repair.answer(alloc, &mut own, answer, mappings);
                self.held = Held::Alone(own);
                progress
            }
        }
    }

    /// Gives the repair the answer to its question, as `Repair::choose` says, and adds its writes at the end.
    pub(crate) fn choose(
        &mut self,
        alloc: Global,
        repair: &mut Repair,
        choice: &Choice,
        mappings: &Mappings<'_>,
    ) -> Result<Progress, Memory>
        requires { TakesChoice (wanted repair.old) (choice_of choice.now) }
        ensures step { IfOk result
            (HasChosen mappings.now choice.now self.old repair.old self.new repair.new) }
        ensures asks { IfOk result (AsksAs repair.new) }
        ensures err { OnErr result (repair.new ≡ repair.old) }
        ensures own { OnErr result (changes_of self.new ≡ changes_of self.old) }
    {
        let mut own = self.take(alloc)?;
        let progress = repair.choose(alloc, &mut own, choice, mappings);
        self.held = Held::Alone(own);
        progress
    }
}

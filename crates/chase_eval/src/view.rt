//! A set of tuples as an update sees it.
ghost use Rattle.std.specs.Prelude.{◌≡◌, ◌∷◌, [], map, IfOk, OnErr, OnOk};
ghost use Rattle.def_chase.specs.Violations.{Every, Caused};
ghost use Rattle.base_types.specs.Meanings.{change_of, heading_of};
ghost use Rattle.chase_query.specs.Meanings.{query_of, reply_of};
ghost use Rattle.chase_eval.specs.Counted.{scope_meant};
ghost use Rattle.chase_eval.specs.Seen.{written, value_seen};
ghost use Rattle.base_types.specs.Contents.{rules_in};
ghost use Rattle.set_facts.specs.Begun.{HoldsOfFirst};

use crate::answers::{Writes, value_over};
use crate::scopes::{Counted, enacts_with};
use base_types::{Direction, Facts, MappingList, Memory, TryCopy, Write, WriteList};
use chase_query::{Query, Reply};
use set_facts::Overlay;
use std::alloc::Global;
use std::marker::Model;

/// A set of tuples as an update sees it: with its own writes applied. More writes can be added. It borrows the set, and keeps a
/// copy of the writes. Contracts see the tuples below the writes, and the writes.
#[derive(Drop)]
pub struct View<'a, F: Facts> {
    // The set without the writes. Only contracts speak of it.
    below: &'a F,
    own: WriteList,
    // Whether an own write may put a mapping in force.
    enacts: bool,
    overlay: Overlay<'a, F>,
}

impl<'a, F: Facts> Model for View<'a, F> {
    ghost use Rattle.std.specs.Prelude.{◌≡◌, map};
    ghost use Rattle.def_chase.specs.Repository.{apply};
    ghost use Rattle.base_types.specs.Meanings.{change_of};
    ghost use Rattle.chase_eval.specs.Seen.{Seen};
    ghost use Rattle.chase_eval.specs.Watched.{AreForceless};

    ghost Value = { Seen };

    ghost view = { λ v. record { below = F.tuples v.below.now; own = map change_of v.own.items } };

    ghost invariant = { λ v.
        (v.overlay ≡ apply (F.tuples v.below.now) (map change_of v.own.items))
        × AreForceless v.enacts (map change_of v.own.items) };
}

impl<'a, F: Facts> View<'a, F> {
    /// The set before any own write.
    pub fn new(alloc: Global, below: &'a F) -> View<'a, F>
        ensures before { result ≡ record { below = F.tuples below.now; own = [] } }
    {
        View {
            below,
            own: WriteList::new(alloc),
            enacts: false,
            overlay: Overlay::new(alloc, below),
        }
    }

    /// Adds an own write. If it is refused, the view is unchanged.
    pub fn write(&mut self, alloc: Global, write: &Write) -> Result<(), Memory>
        ensures ok { OnOk result (self.new ≡ written self.old (change_of write.now ∷ [])) }
        ensures err { OnErr result (self.new ≡ self.old) }
    {
        let copy = write.copy(alloc)?;
        self.own.reserve(1)?;
        self.overlay.write(alloc, write)?;
        self.own.push(copy)?;
        self.enacts = enacts_with(self.enacts, write);
        Ok(())
    }

    /// Adds own writes in turn. If it is refused, some first part of them is added, and the others are not.
    pub fn write_all(&mut self, alloc: Global, writes: &[Write]) -> Result<(), Memory>
        ensures ok { OnOk result (self.new ≡ written self.old (map change_of writes.now)) }
        ensures err { OnErr result
            (HoldsOfFirst (λ some. self.new ≡ written self.old some) writes.now) }
    {
        for write in writes {
            self.write(alloc, write)?;
        }
        Ok(())
    }

    /// The value of the query. Only those violations count that the own writes caused in the direction; forward, if they put the
    /// mapping in force, all its violations count. A mapping that is not in the list has none.
    pub fn eval(
        &self,
        query: &Query,
        mappings: &MappingList,
        direction: Direction,
        alloc: Global,
    ) -> Result<Reply, Memory>
        ensures value { IfOk result (λ answer. reply_of answer ≡
            value_seen (rules_in mappings.now) (query_of query.now) self.now
            (Caused (heading_of direction))) }
    {
        self.value(query, mappings, Counted::Caused(direction), alloc)
    }

    /// The value of the query. Every violation counts. A mapping that is not in the list has none.
    pub fn eval_all(
        &self,
        query: &Query,
        mappings: &MappingList,
        alloc: Global,
    ) -> Result<Reply, Memory>
        ensures value { IfOk result (λ answer. reply_of answer ≡
            value_seen (rules_in mappings.now) (query_of query.now) self.now Every) }
    {
        self.value(query, mappings, Counted::Every, alloc)
    }

    // The value of the query, if the violations `counted` count.
    fn value(
        &self,
        query: &Query,
        mappings: &MappingList,
        counted: Counted,
        alloc: Global,
    ) -> Result<Reply, Memory>
        ensures value { IfOk result (λ answer. reply_of answer ≡
            value_seen (rules_in mappings.now) (query_of query.now) self.now
            (scope_meant counted)) }
    {
        let writes = Writes {
            own: &self.own,
            enacts: self.enacts,
        };
        value_over(alloc, query, mappings, &self.overlay, writes, counted)
    }
}

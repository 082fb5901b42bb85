//! A set of tuples as one update sees it, which does not search again if nothing can have changed.
ghost use Rattle.std.specs.Prelude.{◌≡◌, ◌∷◌, [], true, map, IfOk, OnErr, OnOk};
ghost use Rattle.def_chase.specs.Queries.{value, Nothing};
ghost use Rattle.base_types.specs.Meanings.{rule_of, change_of, heading_of};
ghost use Rattle.chase_query.specs.Meanings.{query_of, reply_of};
ghost use Rattle.chase_eval.specs.Watched.{watched_on, AreSettled, value_in, watched_from};
ghost use Rattle.base_types.specs.Contents.{rules_in};
ghost use Rattle.chase_eval.specs.Touching.{IsTouching};
ghost use Rattle.set_facts.specs.Begun.{HoldsOfFirst};

use crate::settled::Settled;
use crate::touching::Touching;
use crate::view::View;
use base_types::{Direction, Facts, MappingList, Memory, Write};
use chase_query::{Query, Reply};
use std::alloc::Global;
use std::marker::Model;

/// A set of tuples as an update that repairs in one direction sees it: with its own writes applied. More writes can be added. It
/// knows which mappings are settled, and does not search them for violations again. Contracts see the mappings, the direction,
/// the tuples below the writes, and the writes, but not what it remembers.
#[derive(Drop)]
pub struct WatchedView<'a, F: Facts> {
    view: View<'a, F>,
    mappings: &'a MappingList,
    direction: Direction,
    settled: Settled,
    touching: Option<&'a Touching>,
}

impl<'a, F: Facts> Model for WatchedView<'a, F> {
    ghost use Rattle.std.specs.Prelude.{map};
    ghost use Rattle.base_types.specs.Meanings.{rule_of, heading_of};
    ghost use Rattle.chase_eval.specs.Watched.{Watched, AreSettled};
    ghost use Rattle.chase_eval.specs.Touching.{IsTouchingIf};

    ghost Value = { Watched };

    ghost view = { λ v. record {
      rules = map rule_of v.mappings.now.items;
      heading = heading_of v.direction;
      below = v.view.below;
      own = v.view.own;
    } };

    ghost invariant = { λ v.
        AreSettled (record {
          rules = map rule_of v.mappings.now.items;
          heading = heading_of v.direction;
          below = v.view.below;
          own = v.view.own;
        }) v.settled
        × IsTouchingIf (map rule_of v.mappings.now.items) v.touching };
}

impl<'a, F: Facts> WatchedView<'a, F> {
    /// The set before any own write: no violation is caused yet.
    pub fn new(
        alloc: Global,
        below: &'a F,
        mappings: &'a MappingList,
        direction: Direction,
    ) -> Result<WatchedView<'a, F>, Memory>
        ensures before { IfOk result (λ view. view ≡
            watched_from (rules_in mappings.now) (heading_of direction) (F.tuples below.now)) }
    {
        let settled = Settled::all(alloc, mappings.len())?;
        Ok(WatchedView {
            view: View::new(alloc, below),
            mappings,
            direction,
            settled,
            touching: None,
        })
    }

    /// The set before any own write. With `touching` a write need not look at every mapping.
    pub fn with(
        alloc: Global,
        below: &'a F,
        mappings: &'a MappingList,
        direction: Direction,
        touching: &'a Touching,
    ) -> Result<WatchedView<'a, F>, Memory>
        requires touching { IsTouching (rules_in mappings.now) touching.now }
        ensures before { IfOk result (λ view. view ≡
            watched_from (rules_in mappings.now) (heading_of direction) (F.tuples below.now)) }
    {
        let settled = Settled::all(alloc, mappings.len())?;
        Ok(WatchedView {
            view: View::new(alloc, below),
            mappings,
            direction,
            settled,
            touching: Some(touching),
        })
    }

    /// Adds an own write. If it is refused, the view is unchanged.
    pub fn write(&mut self, alloc: Global, write: &Write) -> Result<(), Memory>
        ensures ok { OnOk result (self.new ≡ watched_on self.old (change_of write.now ∷ [])) }
        ensures err { OnErr result (self.new ≡ self.old) }
    {
        self.settled.stir_by(self.touching, self.mappings, write);
        self.view.write(alloc, write)?;
        Ok(())
    }

    /// Adds own writes in turn. If it is refused, some first part of them is added, and the others are not.
    pub fn write_all(&mut self, alloc: Global, writes: &[Write]) -> Result<(), Memory>
        ensures ok { OnOk result (self.new ≡ watched_on self.old (map change_of writes.now)) }
        ensures err { OnErr result
            (HoldsOfFirst (λ some. self.new ≡ watched_on self.old some) writes.now) }
    {
        for write in writes {
            self.write(alloc, write)?;
        }
        Ok(())
    }

    /// The value of the query. Only those violations count that the own writes caused in the direction; forward, if they put the
    /// mapping in force, all its violations count. A mapping that is not in the list has none.
    pub fn eval(&mut self, query: &Query, alloc: Global) -> Result<Reply, Memory>
        ensures value { IfOk result (λ answer. reply_of answer ≡
            value_in self.old (query_of query.now)) }
        ensures same { self.new ≡ self.old }
    {
        if self.settled.knows(query) {
            return Ok(Reply::Nothing);
        }
        let answer = self.view.eval(query, self.mappings, self.direction, alloc)?;
        if matches!(&answer, Reply::Nothing) {
            self.settled.learn(query);
        }
        Ok(answer)
    }

    /// A mark for each mapping by number: a settled mapping has no violation that counts.
    pub fn settled(&self) -> &[bool]
        ensures nothing { AreSettled self.now result.now }
    {
        self.settled.marks()
    }
}

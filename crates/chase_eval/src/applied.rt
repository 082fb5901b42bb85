//! A set of tuples as an update sees it, which has the update's own writes already.
ghost use Rattle.std.specs.Prelude.{◌≡◌, map, IfOk};
ghost use Rattle.std.specs.List.{list_any};
ghost use Rattle.def_chase.specs.Repository.{apply};
ghost use Rattle.def_chase.specs.Violations.{Caused};
ghost use Rattle.base_types.specs.Contents.{changes_of, rules_in};
ghost use Rattle.base_types.specs.Meanings.{change_of, heading_of};
ghost use Rattle.chase_query.specs.Meanings.{query_of, reply_of};
ghost use Rattle.chase_eval.specs.Seen.{value_seen};
ghost use Rattle.chase_eval.specs.Watched.{AreSettled, may_enact as may_enact_def, seen_over};

use crate::answers::{Writes, value_over};
use crate::scopes::{Counted, relation_of};
use crate::settled::Settled;
use base_types::{Direction, FORCE_RELATION, Facts, MappingList, Memory, Write, WriteList};
use chase_query::{Query, Reply};
use std::alloc::Global;
use std::marker::Model;

/// A set of tuples as an update sees it, given with its own writes already made, so that none is applied again. Contracts see the
/// tuples below the writes, and the writes.
#[derive(Drop)]
pub struct AppliedView<'a, F: Facts> {
    // The set without the writes. Only contracts speak of it.
    below: &'a F,
    with: &'a F,
    own: &'a WriteList,
    // Whether an own write may put a mapping in force.
    enacts: bool,
}

impl<'a, F: Facts> Model for AppliedView<'a, F> {
    ghost use Rattle.std.specs.Prelude.{◌≡◌};
    ghost use Rattle.def_chase.specs.Repository.{apply};
    ghost use Rattle.base_types.specs.Contents.{changes_of};
    ghost use Rattle.chase_eval.specs.Seen.{Seen};
    ghost use Rattle.chase_eval.specs.Watched.{AreForceless};

    ghost Value = { Seen };

    ghost view = { λ v. record { below = F.tuples v.below.now; own = changes_of v.own.now } };

    ghost invariant = { λ v.
        (F.tuples v.with.now ≡ apply (F.tuples v.below.now) (changes_of v.own.now))
        × AreForceless v.enacts (changes_of v.own.now) };
}

impl<'a, F: Facts> AppliedView<'a, F> {
    /// The view of `below` with the own writes, if `with` is `below` with these writes made.
    pub fn new(below: &'a F, with: &'a F, own: &'a WriteList) -> AppliedView<'a, F>
        requires applied { F.tuples with.now ≡ apply (F.tuples below.now) (changes_of own.now) }
        ensures seen { result ≡ record { below = F.tuples below.now; own = changes_of own.now } }
    {
        AppliedView {
            below,
            with,
            own,
            enacts: may_enact(own.as_slice()),
        }
    }

    /// The value of the query. Only those violations count that the own writes caused in the direction; forward, if they put the
    /// mapping in force, all its violations count. A mapping that is not in the list has none. A settled mapping is not searched;
    /// if a search finds no violation, it settles the mapping.
    pub fn eval(
        &self,
        query: &Query,
        mappings: &MappingList,
        direction: Direction,
        settled: &mut Settled,
        alloc: Global,
    ) -> Result<Reply, Memory>
        requires settled { AreSettled (seen_over (rules_in mappings.now) (heading_of direction)
            self.now) settled.old }
        ensures value { IfOk result (λ answer. reply_of answer ≡
            value_seen (rules_in mappings.now) (query_of query.now) self.now
            (Caused (heading_of direction))) }
        ensures settled { AreSettled (seen_over (rules_in mappings.now) (heading_of direction)
            self.now) settled.new }
    {
        if settled.knows(query) {
            return Ok(Reply::Nothing);
        }
        let answer = self.value(query, mappings, direction, alloc)?;
        if matches!(&answer, Reply::Nothing) {
            settled.learn(query);
        }
        Ok(answer)
    }

    // The value of the query. Only those violations count that the own writes caused in the direction.
    fn value(
        &self,
        query: &Query,
        mappings: &MappingList,
        direction: Direction,
        alloc: Global,
    ) -> Result<Reply, Memory>
        ensures value { IfOk result (λ answer. reply_of answer ≡
            value_seen (rules_in mappings.now) (query_of query.now) self.now
            (Caused (heading_of direction))) }
    {
        let writes = Writes {
            own: self.own,
            enacts: self.enacts,
        };
        value_over(
            alloc,
            query,
            mappings,
            self.with,
            writes,
            Counted::Caused(direction),
        )
    }
}

// Whether one of the writes may put a mapping in force.
fn may_enact(writes: &[Write]) -> bool
    ensures any { result ≡ list_any may_enact_def (map change_of writes.now) }
{
    writes
        .iter()
        .any(|write| relation_of(write) == FORCE_RELATION)
}

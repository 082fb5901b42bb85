//! A set of tuples that is mostly filled in order.
ghost use Rattle.std.specs.Prelude.{◌≡◌, [], not, length, map, IfOk, OnOk, OnErr, IfErr};
ghost use Rattle.def_chase.specs.Repository.{has, change, Insert, IsRepository};
ghost use Rattle.base_types.specs.Meanings.{fact_of};

use crate::listed::{Held, ListedFacts};
use crate::plain::PlainFacts;
use base_types::{Facts, Memory, Tuple, TupleList};
use std::alloc::Global;
use std::marker::Model;

/// A set of tuples that are put in one by one. As long as each belongs near the end, the set is a list, which `into_list` returns
/// as it is; a tuple after all others costs one comparison. With the first tuple that belongs elsewhere it becomes a balanced
/// tree. Contracts see the list of its tuples, in order.
#[derive(Drop)]
pub struct RisingFacts {
    held: Held,
    alloc: Global,
}

impl Model for RisingFacts {
    ghost use Rattle.std.specs.Prelude.{List};
    ghost use Rattle.def_chase.specs.Values.{Fact};

    ghost Value = { List Fact };

    ghost use Rattle.def_chase.specs.Repository.{IsRepository};
    ghost use Rattle.set_facts.specs.Rising.{tuples_held};

    ghost view = { λ f. tuples_held f.held };

    ghost invariant = { λ f. IsRepository (tuples_held f.held) };
}

impl RisingFacts {
    /// The empty set.
    pub fn new(alloc: Global) -> RisingFacts
        ensures empty { result ≡ [] }
    {
        RisingFacts {
            held: Held::Listed(ListedFacts::new(alloc)),
            alloc,
        }
    }

    /// The number of tuples.
    pub fn len(&self) -> usize
        ensures length { result ≡ length self.now }
    {
        match &self.held {
            Held::Listed(tuples) => tuples.len(),
            Held::Tree(facts) => facts.len(),
        }
    }

    /// Inserts a tuple, and returns whether it is new. If it is refused, it hands the tuple back, and the set is unchanged.
    pub fn insert(&mut self, tuple: Tuple) -> Result<bool, (Tuple, Memory)>
        ensures changed { IfOk result (λ changed. changed ≡ not (has self.old (fact_of tuple))) }
        ensures ok { OnOk result (self.new ≡ change self.old (Insert (fact_of tuple))) }
        ensures given_back { IfErr result (λ refused. refused.0 ≡ tuple) }
        ensures err { OnErr result (self.new ≡ self.old) }
    {
        match &mut self.held {
            Held::Tree(facts) => facts.insert(tuple),
            Held::Listed(tuples) => {
                if tuples.ends_near(&tuple) {
                    return tuples.insert(tuple);
                }
                let Ok(facts) = tuples.tree(self.alloc) else {
                    return Err((tuple, Memory));
                };
                self.insert_into(facts, tuple)
            }
        }
    }

    // Puts a tuple into the set, which is a tree from now on.
    fn insert_into(&mut self, facts: PlainFacts, tuple: Tuple) -> Result<bool, (Tuple, Memory)>
        requires same { facts ≡ self.old }
        ensures changed { IfOk result (λ changed. changed ≡ not (has self.old (fact_of tuple))) }
        ensures ok { OnOk result (self.new ≡ change self.old (Insert (fact_of tuple))) }
        ensures given_back { IfErr result (λ refused. refused.0 ≡ tuple) }
        ensures err { OnErr result (self.new ≡ self.old) }
    {
        let mut facts = facts;
        let added = facts.insert(tuple)?;
        self.held = Held::Tree(facts);
        Ok(added)
    }

    /// Whether the tuple is there. Its tuples stay the same.
    pub fn find(&mut self, tuple: &Tuple) -> Result<bool, Memory>
        ensures answer { IfOk result (λ there. there ≡ has self.old (fact_of tuple.now)) }
        ensures same { self.new ≡ self.old }
    {
        match &self.held {
            Held::Listed(tuples) => Ok(tuples.contains(tuple)),
            Held::Tree(facts) => Ok(facts.contains(tuple)),
        }
    }

    /// The tuples in order, taken out of the set.
    pub fn into_list(self, alloc: Global) -> Result<TupleList, Memory>
        ensures tuples { IfOk result (λ list. map fact_of list.items ≡ self) }
    {
        match self.held {
            Held::Listed(tuples) => Ok(tuples.into_list()),
            Held::Tree(facts) => facts.into_list(alloc),
        }
    }
}

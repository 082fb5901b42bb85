//! The taken tuples: tuples of the base whose marks the table holds in place of the base.
ghost use Rattle.std.specs.Prelude.{◌≡◌, [], None, map, cond, IfOk, IsTrue, OnOk};
ghost use Rattle.def_chase.specs.Cursors.{next_of};
ghost use Rattle.def_chase.specs.Repository.{has, IsRepository};
ghost use Rattle.def_chase.specs.Values.{Fact, same_fact};
ghost use Rattle.std.specs.Option.{option_map, option_copied};
ghost use Rattle.base_types.specs.Candidates.{further_candidates};
ghost use Rattle.base_types.specs.Meanings.{fact_of};
ghost use Rattle.set_versions.specs.Passed.{to_pass, AreToPass};

use crate::handles::Handle;
use crate::passing::Passing;
use crate::searches::{Held, Onward};
use base_tree::{Share, Start, TreeMap};
use base_types::Tuple;
use def_memory::Memory;
use set_facts::Hides;
use std::alloc::{AllocError, Global};
use std::marker::Model;

/// Some tuples, mostly very few. Contracts see the list of them.
#[derive(Drop)]
pub struct Taken {
    tuples: TreeMap<Handle, ()>,
}

impl Model for Taken {
    ghost use Rattle.std.specs.Prelude.{List, map};
    ghost use Rattle.def_chase.specs.Values.{Fact};
    ghost use Rattle.base_types.specs.Meanings.{fact_of};

    ghost Value = { List Fact };

    ghost view = { λ t. map (λ e. fact_of e.0) t.tuples };
}

impl Taken {
    /// No tuple.
    pub fn none() -> Taken
        ensures none { result ≡ [] }
    {
        Taken {
            tuples: TreeMap::new(),
        }
    }

    /// Another handle to the same tuples.
    pub fn share(&self) -> Result<Taken, AllocError>
        ensures same { IfOk result (λ copy. copy ≡ self.now) }
    {
        Ok(Taken {
            tuples: self.tuples.share()?,
        })
    }

    /// Whether the tuple is among them.
    pub fn contains(&self, tuple: &Tuple) -> bool
        ensures answer { result ≡ has self.now (fact_of tuple.now) }
    {
        match self.tuples.find_at(&Held::new(tuple)) {
            Some(_) => return true,
            None => return false,
        }
    }

    /// Whether none of them is of the relation and above `past`, if that is given.
    pub fn has_none(&self, relation: u16, past: Option<&Tuple>) -> bool
        ensures none { IsTrue result → further_candidates self.now relation None
            (option_map fact_of (option_copied past.entry)) ≡ [] }
    {
        let found = self.tuples.find_in(&Onward { relation, past });
        found.is_none()
    }

    /// The least of them that is of the tuple's relation and above it; None exactly if there is none.
    pub fn after(&self, tuple: &Tuple) -> Option<&Tuple>
        ensures found { option_map fact_of (option_copied result)
            ≡ next_of self.now (fact_of tuple.now) }
        ensures in_order { IsRepository self.now }
    {
        let onward = Onward {
            relation: tuple.relation,
            past: Some(tuple),
        };
        match self.tuples.find_in(&onward) {
            Some(entry) => return Some(entry.0.get()),
            None => return None,
        }
    }

    /// All of them in order, to be passed.
    pub fn passing(&self) -> Passing<'_>
        ensures all { to_pass result ≡ self.now }
        ensures ready { AreToPass result }
    {
        Passing::of(self.tuples.cursor(&Start))
    }

    /// These tuples with the given one, or without it.
    pub fn set(self, alloc: Global, tuple: &Handle, taken: bool) -> Result<Taken, Memory>
        ensures set { IfOk result (λ new. (t : Fact)
            → has new t ≡ cond (same_fact t (fact_of tuple.now)) taken (has self t)) }
    {
        let Taken { mut tuples } = self;
        if taken {
            match tuples.put(alloc, tuple.share()?, ()) {
                Ok(_) => return Ok(Taken { tuples }),
                Err(_) => return Err(Memory),
            }
        }
        tuples.remove(tuple)?;
        Ok(Taken { tuples })
    }
}

impl Hides for Taken {
    ghost hidden = { λ D. D };

    fn hides(&self, tuple: &Tuple) -> bool {
        self.contains(tuple)
    }
}

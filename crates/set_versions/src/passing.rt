//! A pass over the taken tuples in order, alongside a pass over other tuples.
ghost use Rattle.std.specs.Prelude.{◌≡◌, map};
ghost use Rattle.std.specs.declared.cmp.Ordering.TheVariants.{Less};
ghost use Rattle.def_chase.specs.Repository.{has, IsRepository};
ghost use Rattle.def_chase.specs.Values.{Fact, fact_cmp};
ghost use Rattle.base_types.specs.Meanings.{fact_of};
ghost use Rattle.set_versions.specs.Passed.{to_pass, AreToPass};

use crate::handles::Handle;
use base_tree::Cursor;
use base_types::Tuple;
use std::cmp::Ordering;

/// The taken tuples that are still to be passed.
#[derive(Drop)]
pub struct Passing<'a> {
    // The first of them, and the tuples after it.
    pub(crate) next: Option<&'a (Handle, ())>,
    pub(crate) rest: Cursor<'a, Handle, ()>,
}

impl<'a> Passing<'a> {
    /// All tuples that are ahead of the cursor.
    pub fn of(rest: Cursor<'a, Handle, ()>) -> Passing<'a>
        requires in_order { IsRepository (map (λ e. fact_of e.0) rest) }
        ensures all { to_pass result ≡ map (λ e. fact_of e.0) rest.entry }
        ensures ready { AreToPass result }
    {
        let mut rest = rest;
        let next = rest.next();
        Passing { next, rest }
    }

    /// Whether the tuple is among them. The tuples below it are passed.
    pub fn has(&mut self, tuple: &Tuple) -> bool
        requires ready { AreToPass self.old }
        ensures answer { result ≡ has (to_pass self.old) (fact_of tuple.now) }
        ensures above { (u : Fact) → fact_cmp (fact_of tuple.now) u ≡ Less →
            has (to_pass self.new) u ≡ has (to_pass self.old) u }
        ensures ready { AreToPass self.new }
    {
        while let Some(entry) = self.next {
            match entry.0.get().cmp(tuple) {
                Ordering::Less => self.next = self.rest.next(),
                Ordering::Equal => return true,
                Ordering::Greater => return false,
            }
        }
        false
    }
}

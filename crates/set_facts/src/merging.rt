//! Two runs as one, without the hidden tuples of the first.
ghost use Rattle.std.specs.Prelude.{◌≡◌, ◌++◌, [], IfNone};
ghost use Rattle.std.specs.Option.{option_copied, option_map, option_to_list};
ghost use Rattle.base_types.specs.Candidates.{AreFirst};
ghost use Rattle.base_types.specs.Meanings.{fact_of};
ghost use Rattle.set_facts.specs.Runs.{run_of, left_of, merged, ahead_of};

use crate::course::Hides;
use crate::runs::Run;
use base_tree::Few;
use base_types::Tuple;
use std::cmp::Ordering;
use std::marker::Model;

/// A run without its hidden tuples, merged in order with another run. Contracts see the tuples that are still to come.
#[derive(Drop)]
pub struct Merging<'a, H: Hides> {
    base: Run<'a>,
    hidden: &'a H,
    added: Run<'a>,
    // The next tuple of each run, read ahead.
    left: Option<&'a Tuple>,
    put: Option<&'a Tuple>,
}

impl<'a, H: Hides> Model for Merging<'a, H> {
    ghost use Rattle.std.specs.Prelude.{List, ◌≡◌, [], IfNone};
    ghost use Rattle.std.specs.Option.{option_copied, option_map};
    ghost use Rattle.def_chase.specs.Values.{Fact};
    ghost use Rattle.base_types.specs.Meanings.{fact_of};
    ghost use Rattle.set_facts.specs.Runs.{run_of, left_of, merged, ahead_of};

    ghost Value = { List Fact };

    ghost view = { λ m.
        merged (ahead_of m.left (left_of (H.hidden m.hidden.now) (run_of m.base))) (ahead_of m.put
        (run_of m.added)) };

    ghost invariant = { λ m. IfNone m.left (left_of (H.hidden m.hidden.now) (run_of m.base) ≡ [])
        × IfNone m.put (run_of m.added ≡ []) };
}

impl<'a, H: Hides> Merging<'a, H> {
    /// The run `base` without its hidden tuples, merged with the second run, which is `put` and then `added`.
    pub fn new(
        base: Run<'a>,
        hidden: &'a H,
        put: Option<&'a Tuple>,
        added: Run<'a>,
    ) -> Merging<'a, H>
        requires end { IfNone put (run_of added ≡ []) }
        ensures both { result ≡ merged (left_of (H.hidden hidden.now) (run_of base.entry))
            (ahead_of put.entry (run_of added.entry)) }
    {
        let mut base = base;
        let left = base.next_left(hidden);
        Merging {
            base,
            hidden,
            added,
            left,
            put,
        }
    }

    /// The next tuple; None exactly if there is none to come.
    pub fn next(&mut self) -> Option<&'a Tuple>
        ensures step { self.old ≡
            option_to_list (option_map fact_of (option_copied result)) ++ self.new }
        ensures end { IfNone result (self.old ≡ []) }
    {
        let Some(left) = self.left else {
            let put = self.put;
            self.put = self.added.next();
            return put;
        };
        let Some(put) = self.put else {
            self.left = self.base.next_left(self.hidden);
            return Some(left);
        };
        match left.cmp(put) {
            Ordering::Less => {
                self.left = self.base.next_left(self.hidden);
                Some(left)
            }
            Ordering::Equal => {
                self.left = self.base.next_left(self.hidden);
                self.put = self.added.next();
                Some(left)
            }
            Ordering::Greater => {
                self.put = self.added.next();
                Some(put)
            }
        }
    }

    /// The next tuples, as many as the result has room for.
    pub fn few(&mut self) -> Few<'a, Tuple>
        ensures first { AreFirst result self.old }
    {
        let mut few = Few::new();
        while !few.is_full() {
            let Some(tuple) = self.next() else {
                return few;
            };
            few.push(tuple);
        }
        few
    }
}

//! The tuples that an update sees, one by one: the rest of the base merged with the tuples of the table.
ghost use Rattle.std.specs.Prelude.{◌≡◌, ◌++◌, [], IfNone};
ghost use Rattle.std.specs.Option.{option_copied, option_map, option_to_list};
ghost use Rattle.base_types.specs.Meanings.{fact_of};
ghost use Rattle.set_facts.specs.Runs.{left_of, merged, run_of};
ghost use Rattle.def_chase.specs.Repository.{IsRepository};
ghost use Rattle.set_versions.specs.Marked.{visible};
ghost use Rattle.set_versions.specs.Passed.{to_pass, AreToPass};

use crate::handles::Handle;
use crate::marks::Marks;
use crate::passing::Passing;
use crate::searches::Held;
use base_tree::{Cursor, Sought};
use base_types::Tuple;
use set_facts::Run;
use std::cmp::Ordering;
use std::marker::Model;

/// The tuples that an update sees, in order. Contracts see the tuples that are still to come.
#[derive(Drop)]
pub struct Sweep<'a> {
    base: Run<'a>,
    taken: Passing<'a>,
    rows: Cursor<'a, Handle, Marks>,
    number: u32,
    // The next tuple of the base and the next of the table, read ahead.
    left: Option<&'a Tuple>,
    put: Option<&'a Handle>,
}

impl<'a> Model for Sweep<'a> {
    ghost use Rattle.std.specs.Prelude.{List, ◌≡◌, [], IfNone};
    ghost use Rattle.def_chase.specs.Repository.{IsRepository};
    ghost use Rattle.def_chase.specs.Values.{Fact};
    ghost use Rattle.set_facts.specs.Runs.{run_of, left_of, merged, ahead_of};
    ghost use Rattle.set_versions.specs.Marked.{visible};
    ghost use Rattle.set_versions.specs.Passed.{to_pass, AreToPass};

    ghost Value = { List Fact };

    ghost view = { λ s.
        merged (ahead_of s.left (left_of (to_pass s.taken) (run_of s.base))) (ahead_of s.put
        (visible s.number s.rows)) };

    ghost invariant = { λ s. AreToPass s.taken × (IsRepository (run_of s.base)
        × (IfNone s.left (left_of (to_pass s.taken) (run_of s.base) ≡ [])
        × IfNone s.put (visible s.number s.rows ≡ []))) };
}

impl<'a> Sweep<'a> {
    /// The tuples of the base that are not taken, merged with the tuples of the rows that the update sees.
    pub(crate) fn of(
        base: Run<'a>,
        taken: Passing<'a>,
        rows: Cursor<'a, Handle, Marks>,
        number: u32,
    ) -> Sweep<'a>
        requires ready { AreToPass taken }
        requires in_order { IsRepository (run_of base) }
        ensures both { result ≡ merged (left_of (to_pass taken.entry) (run_of base.entry))
            (visible number rows.entry) }
    {
        let (mut base, mut taken, mut rows) = (base, taken, rows);
        let left = next_left(&mut base, &mut taken);
        let put = next_standing(&mut rows, number);
        Sweep {
            base,
            taken,
            rows,
            number,
            left,
            put,
        }
    }

    /// The next tuple; None exactly if there is none left.
    pub fn next(&mut self) -> Option<&'a Tuple>
        ensures step { self.old ≡
            option_to_list (option_map fact_of (option_copied result)) ++ self.new }
        ensures end { IfNone result (self.old ≡ []) }
    {
        let Some(left) = self.left else {
            let put = self.put;
            self.put = next_standing(&mut self.rows, self.number);
            return tuple_of(put);
        };
        let Some(put) = self.put else {
            self.left = next_left(&mut self.base, &mut self.taken);
            return Some(left);
        };
        match Held::new(left).order(put) {
            Ordering::Less => {
                self.left = next_left(&mut self.base, &mut self.taken);
                Some(left)
            }
            Ordering::Equal => {
                self.left = next_left(&mut self.base, &mut self.taken);
                self.put = next_standing(&mut self.rows, self.number);
                Some(left)
            }
            Ordering::Greater => {
                self.put = next_standing(&mut self.rows, self.number);
                Some(put.get())
            }
        }
    }
}

// The tuple of the handle, if there is one.
fn tuple_of<'a>(handle: Option<&'a Handle>) -> Option<&'a Tuple>
    ensures same { option_copied result ≡ option_copied handle.entry }
{
    match handle {
        Some(handle) => Some(handle.get()),
        None => None,
    }
}

// The next tuple of the base that is not taken.
fn next_left<'a>(base: &mut Run<'a>, taken: &mut Passing<'a>) -> Option<&'a Tuple>
    requires ready { AreToPass taken.old }
    requires in_order { IsRepository (run_of base.old) }
    ensures step { left_of (to_pass taken.old) (run_of base.old) ≡
        option_to_list (option_map fact_of (option_copied result)) ++
        left_of (to_pass taken.new) (run_of base.new) }
    ensures end { IfNone result (left_of (to_pass taken.new) (run_of base.new) ≡ []) }
    ensures ready { AreToPass taken.new }
    ensures in_order { IsRepository (run_of base.new) }
{
    while let Some(tuple) = base.next() {
        if !taken.has(tuple) {
            return Some(tuple);
        }
    }
    None
}

// The next tuple of the rows that the update sees.
fn next_standing<'a>(rows: &mut Cursor<'a, Handle, Marks>, number: u32) -> Option<&'a Handle>
    ensures step { visible number rows.old ≡
        option_to_list (option_map fact_of (option_copied result)) ++ visible number rows.new }
    ensures end { IfNone result (visible number rows.new ≡ []) }
{
    while let Some(row) = rows.next() {
        if row.1.stands(number) {
            return Some(&row.0);
        }
    }
    None
}

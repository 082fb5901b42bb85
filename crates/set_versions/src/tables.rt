//! Tuples with their marks, and an index of them by column.
ghost use Rattle.std.specs.Prelude.{◌≡◌, [], length, map, IfOk, OnOk, OnErr};
ghost use Rattle.base_types.specs.Meanings.{fact_of};
ghost use Rattle.base_tree.specs.Orders.{IsOrdered};
ghost use Rattle.set_versions.specs.Chains.{AreMarks, AreRows};
ghost use Rattle.set_versions.specs.Marked.{marks_at};
ghost use Rattle.std.specs.Option.{option_map, option_copied};

use crate::edits::set;
use crate::handles::Handle;
use crate::indexes::{indexed, shared};
use crate::marks::Marks;
use crate::nulls::{WithNull, raised};
use crate::scans::Scan;
use crate::searches::{Beyond, Further, Held, Lead, Zone};
use crate::spots::spot;
use crate::spreads::{Spots, Spread};
use base_tree::{Cursor, Few, Share, Start, TreeMap};
use base_types::{Column, OuterName, Tuple, Value};
use def_memory::Memory;
use std::alloc::{AllocError, Global};
use std::marker::Model;
use std::mem;

/// Tuples with their marks, in order, and an index of them by cells. Contracts see the tuples with their marks. The index is
/// changed in place, and dropped if memory runs out during a change. Without it a search goes through all tuples of a relation.
/// No update above `newest` drew a null that a row holds, so a search for such a null ends at once.
#[derive(Drop)]
pub struct Table {
    rows: TreeMap<Handle, Marks>,
    index: Option<Spots>,
    newest: u32,
}

impl Model for Table {
    ghost use Rattle.std.specs.Prelude.{List};
    ghost use Rattle.base_types.specs.declared.tuples.Tuple.{Tuple};
    ghost use Rattle.set_versions.specs.declared.marks.Marks.{Marks};

    ghost Value = { List (Tuple × Marks) };

    ghost use Rattle.set_versions.specs.Chains.{AreRows};
    ghost use Rattle.set_versions.specs.Drawn.{AreDrawnUpTo};
    ghost use Rattle.set_versions.specs.Indexed.{IsIndexed};

    ghost view = { λ t. t.rows };

    ghost invariant = { λ t.
        AreRows t.rows × IsIndexed t.rows t.index × AreDrawnUpTo t.newest t.rows };
}

impl Table {
    ghost use Rattle.std.specs.Prelude.{cond};
    ghost use Rattle.def_chase.specs.Values.{Fact, same_fact};

    /// The table of no tuple.
    pub fn none() -> Table
        ensures none { result ≡ [] }
    {
        Table {
            rows: TreeMap::new(),
            index: Some(Spread::none()),
            newest: 0,
        }
    }

    /// The number of tuples.
    pub fn len(&self) -> usize
        ensures length { result ≡ length self.now }
    {
        self.rows.len()
    }

    /// Another handle to the same table.
    pub fn share(&self) -> Result<Table, AllocError>
        ensures same { IfOk result (λ copy. copy ≡ self.now) }
        ensures in_order { IfOk result AreRows }
    {
        Ok(Table {
            rows: self.rows.share()?,
            index: shared(&self.index)?,
            newest: self.newest,
        })
    }

    /// Another handle to the table. It takes the index away from this one, so that the index can be changed in place.
    pub fn lend(&mut self) -> Result<Table, AllocError>
        ensures same { IfOk result (λ lent. lent ≡ self.old) }
        ensures kept { self.new ≡ self.old }
    {
        Ok(Table {
            rows: self.rows.share()?,
            index: mem::replace(&mut self.index, None),
            newest: self.newest,
        })
    }

    /// A handle to the tuple, with its marks in the table.
    pub fn entry(&self, tuple: &Tuple) -> Result<(Handle, Marks), Memory>
        ensures tuple { IfOk result (λ e. fact_of e.0 ≡ fact_of tuple.now) }
        ensures marks { IfOk result (λ e. e.1 ≡ marks_at self.now (fact_of tuple.now)) }
        ensures in_order { IfOk result (λ e. AreMarks e.1) }
    {
        match self.rows.find_at(&Held::new(tuple)) {
            Some(entry) => {
                let key = entry.0.share()?;
                let marks = entry.1.share()?;
                return Ok((key, marks));
            }
            None => return Ok((Handle::new(tuple.share()?), Marks::new())),
        }
    }

    /// Sets the marks of the tuple, in place if no other handle shares the changed part. If it is refused, the table is unchanged
    /// but has lost its index.
    pub fn put(&mut self, alloc: Global, key: Handle, marks: Marks) -> Result<(), Memory>
        requires in_order { AreMarks marks }
        ensures marks { OnOk result ((t : Fact) → marks_at self.new t ≡
            cond (same_fact t (fact_of key)) marks (marks_at self.old t)) }
        ensures in_order { OnOk result (AreRows self.new) }
        ensures err { OnErr result (self.new ≡ self.old) }
    {
        let index = mem::replace(&mut self.index, None);
        let index = indexed(index, alloc, &key, &marks)?;
        let newest = raised(self.newest, key.get());
        set(&mut self.rows, alloc, key, marks)?;
        self.index = index;
        self.newest = newest;
        Ok(())
    }
}

// The tuples of the table that an update sees. No call takes memory.
impl Table {
    ghost use Rattle.std.specs.Prelude.{find};
    ghost use Rattle.def_chase.specs.Cursors.{is_beyond, first_of, next_of, scan_of};
    ghost use Rattle.def_chase.specs.Repository.{has, IsRepository};
    ghost use Rattle.base_types.specs.Candidates.{is_holding};
    ghost use Rattle.base_types.specs.Meanings.{datum_of};
    ghost use Rattle.std.specs.Ordering.{on};
    ghost use Rattle.def_chase.specs.Values.{fact_cmp};
    ghost use Rattle.set_versions.specs.Marked.{visible};

    /// The rows in order, as a cursor.
    pub fn cursor(&self) -> Cursor<'_, Handle, Marks>
        ensures rows { result ≡ self.now }
    {
        self.rows.cursor(&Start)
    }

    /// Whether the update sees the tuple.
    pub fn contains(&self, number: u32, tuple: &Tuple) -> bool
        ensures answer { result ≡ has (visible number self.now) (fact_of tuple.now) }
        ensures in_order { IsRepository (visible number self.now) }
    {
        match self.rows.find_at(&Held::new(tuple)) {
            Some(entry) => return entry.1.stands(number),
            None => return false,
        }
    }

    /// The least tuple of any relation that the update sees above the given one, or of all if none is given.
    pub fn beyond(&self, number: u32, past: Option<&Tuple>) -> Option<&Tuple>
        ensures found { option_map fact_of (option_copied result)
            ≡ find (is_beyond (option_map fact_of (option_copied past.entry)))
            (visible number self.now) }
        ensures in_order { IsRepository (visible number self.now) }
    {
        tuple_in(self.rows.find_in(&Beyond { number, past }))
    }

    /// The least tuple above `past`, if that is given, that update `number` sees and that holds a null of the name.
    pub fn holding(&self, number: u32, name: OuterName, past: Option<&Tuple>) -> Option<&Tuple>
        ensures found { option_map fact_of (option_copied result)
            ≡ find (is_holding name.update name.place
            (option_map fact_of (option_copied past.entry))) (visible number self.now) }
        ensures in_order { IsRepository (visible number self.now) }
    {
        if self.newest < name.update {
            return None;
        }
        tuple_in(self.rows.find_in(&WithNull { number, name, past }))
    }

    /// The least tuple of the relation that the update sees.
    pub fn first(&self, number: u32, relation: u16) -> Option<&Tuple>
        ensures found { option_map fact_of (option_copied result)
            ≡ first_of (visible number self.now) relation }
        ensures in_order { IsRepository (visible number self.now) }
    {
        tuple_in(
            self.rows.find_in(&Zone {
                number,
                relation,
                past: None,
            }),
        )
    }

    /// The least tuple above the given one in its relation that the update sees.
    pub fn after(&self, number: u32, tuple: &Tuple) -> Option<&Tuple>
        ensures found { option_map fact_of (option_copied result)
            ≡ next_of (visible number self.now) (fact_of tuple.now) }
        ensures in_order { IsRepository (visible number self.now) }
    {
        tuple_in(
            self.rows.find_in(&Zone {
                number,
                relation: tuple.relation,
                past: Some(tuple),
            }),
        )
    }

    /// The least tuple of the relation that the update sees with the value in the column, above `past`, if that is given.
    pub fn scan(
        &self,
        number: u32,
        relation: u16,
        column: u16,
        value: &Value,
        past: Option<&Tuple>,
    ) -> Option<&Tuple>
        ensures found { option_map fact_of (option_copied result)
            ≡ scan_of (visible number self.now) relation column (datum_of value.now)
            (option_map fact_of (option_copied past.entry)) }
        ensures in_order { IsRepository (visible number self.now) }
    {
        if column == 0 {
            return tuple_in(self.rows.find_in(&Lead::new(number, relation, value, past)));
        }
        let column = column as usize;
        let Some(index) = &self.index else {
            return tuple_in(
                self.rows.find_in(&Further {
                    number,
                    relation,
                    column,
                    value,
                    past,
                }),
            );
        };
        let Some(shelf) = index.shelf(spot(relation, column, Some(value))) else {
            return None;
        };
        let found = shelf.cells.find_in(&Scan {
            number,
            relation,
            column,
            value,
            past,
        });
        match found {
            Some(entry) => return Some(entry.0.tuple.get()),
            None => return None,
        }
    }
}

// The candidates that an update sees, a few at a time. No call takes memory.
impl Table {
    ghost use Rattle.std.specs.Prelude.{◌≤◌, Some};
    ghost use Rattle.base_types.specs.Candidates.{column_of, further_candidates, AreFirst};
    ghost use Rattle.base_types.specs.Meanings.{datum_of};
    ghost use Rattle.def_chase.specs.Repository.{IsRepository};
    ghost use Rattle.set_versions.specs.Marked.{visible};

    /// The first tuples of the relation that the update sees, with the column's value and above `past`, if these are given: all
    /// of them, or as many as the result has room for.
    pub fn candidates(
        &self,
        number: u32,
        relation: u16,
        column: Option<Column<'_>>,
        past: Option<&Tuple>,
    ) -> Few<'_, Tuple>
        ensures first { AreFirst result (further_candidates (visible number self.now) relation
            (option_map column_of column.entry) (option_map fact_of (option_copied past.entry))) }
        ensures in_order { IsRepository (visible number self.now) }
    {
        let Some(column) = column else {
            return self.rows.gather(&Zone {
                number,
                relation,
                past,
            });
        };
        if column.number == 0 {
            return self
                .rows
                .gather(&Lead::new(number, relation, column.value, past));
        }
        self.few_at(number, relation, column, past)
    }

    // The first candidates with the value in a column after the first.
    #[inline(never)]
    fn few_at(
        &self,
        number: u32,
        relation: u16,
        column: Column<'_>,
        past: Option<&Tuple>,
    ) -> Few<'_, Tuple>
        requires further { 1 ≤ column.number }
        ensures first { AreFirst result (further_candidates (visible number self.now) relation
            (Some (column_of column.entry)) (option_map fact_of (option_copied past.entry))) }
        ensures in_order { IsRepository (visible number self.now) }
    {
        let value = column.value;
        let column = column.number as usize;
        let Some(index) = &self.index else {
            return self.rows.gather(&Further {
                number,
                relation,
                column,
                value,
                past,
            });
        };
        let Some(shelf) = index.shelf(spot(relation, column, Some(value))) else {
            return Few::new();
        };
        shelf.cells.gather(&Scan {
            number,
            relation,
            column,
            value,
            past,
        })
    }
}

// The tuple of a row.
fn tuple_in(found: Option<&(Handle, Marks)>) -> Option<&Tuple>
    ensures { option_copied result ≡ option_map (λ e. e.0) (option_copied found.entry) }
{
    match found {
        Some(row) => Some(row.0.get()),
        None => None,
    }
}

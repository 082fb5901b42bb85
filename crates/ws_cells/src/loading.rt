//! How rows become tuples, and the faults found on the way.

use crate::fitting::Fitted;
use crate::forms::{Empty, Form};
use crate::matching::FittedColumn;
use crate::readers::CsvRow;
use crate::rows::{Loaded, LoadedRow};
use crate::values::{Read, read_cell};
use std::alloc::{AllocError, Global};
use ws_grammar::has_name;
use ws_print::{Text, add_count};
use ws_written::{NewFact, Unknown};

/// A fault, with its line.
#[derive(Drop)]
pub(crate) struct RowFault {
    pub(crate) line: u64,
    pub(crate) words: String,
}

/// How rows are read, and what has been read so far.
#[derive(Drop)]
pub(crate) struct Loading<'a> {
    alloc: Global,
    form: &'a Form,
    fitted: &'a Fitted,
    standing: &'a [Unknown],
    loaded: Loaded,
    faults: Vec<RowFault>,
}

impl<'a> Loading<'a> {
    /// The beginning: nothing has been read yet. `standing` is in order.
    pub(crate) fn of(
        alloc: Global,
        form: &'a Form,
        fitted: &'a Fitted,
        standing: &'a [Unknown],
    ) -> Loading<'a> {
        let loaded = Loaded {
            rows: Vec::new(alloc),
            skipped: 0,
        };
        Loading {
            alloc,
            form,
            fitted,
            standing,
            loaded,
            faults: Vec::new(alloc),
        }
    }

    /// The tuples, and the faults in the order of their rows.
    pub(crate) fn parts(self) -> (Loaded, Vec<RowFault>) {
        let Loading {
            alloc: _,
            form: _,
            fitted: _,
            standing: _,
            loaded,
            faults,
        } = self;
        (loaded, faults)
    }

    /// Reads a row; `number` counts from 1.
    pub(crate) fn add_row(&mut self, number: u64, row: &CsvRow) -> Result<(), AllocError> {
        if row.cells.len() != self.fitted.width {
            return self.wrong_width(number, row);
        }
        if self.form.empty == Empty::Skip && self.lacks(row) {
            self.loaded.skipped = self.loaded.skipped.saturating_add(1);
            return Ok(());
        }
        let fact = self.fact(number, row)?;
        self.loaded.rows.push(LoadedRow {
            line: row.line,
            row: number,
            fact,
        })?;
        Ok(())
    }

    fn wrong_width(&mut self, number: u64, row: &CsvRow) -> Result<(), AllocError> {
        let width = self.fitted.width;
        let mut words = Text::new(self.alloc);
        write!(words, "row {number} has ");
        add_count(&mut words, row.cells.len(), "cell");
        write!(words, ", the header has {width}");
        let words = words.done()?;
        self.add_fault(row.line, words)
    }

    fn add_fault(&mut self, line: u64, words: String) -> Result<(), AllocError> {
        self.faults.push(RowFault { line, words })?;
        Ok(())
    }

    // Whether a cell that is taken is empty.
    fn lacks(&self, row: &CsvRow) -> bool {
        for column in self.fitted.columns.iter() {
            if self.cell(row, column).is_empty() {
                return true;
            }
        }
        false
    }

    // The cell of a column; an empty text if it counts as empty.
    fn cell<'r>(&self, row: &'r CsvRow, column: &FittedColumn) -> &'r str {
        match row.cells.get(column.place) {
            Some(cell) if !has_name(self.form.nulls.as_slice(), cell.as_str()) => cell.as_str(),
            _ => "",
        }
    }

    // The tuple of a row, without the values that have a fault.
    fn fact(&mut self, number: u64, row: &CsvRow) -> Result<NewFact, AllocError> {
        let fitted = self.fitted;
        let mut values = Vec::with_capacity(self.alloc, fitted.columns.len())?;
        for column in fitted.columns.iter() {
            let cell = self.cell(row, column);
            match read_cell(self.alloc, self.form, self.standing, column, cell)? {
                Read::Value(value) => values.push(value)?,
                Read::Wrong(what) => {
                    let words = format!(in self.alloc; "row {number}: {what}")?;
                    self.add_fault(row.line, words)?;
                }
            }
        }
        Ok(NewFact {
            relation: fitted.relation,
            values,
        })
    }
}

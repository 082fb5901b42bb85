//! Tables: columns that are as wide as their widest cell.

use crate::escapes::{add_quoted, is_control};
use crate::texts::{Lines, Text};
use crate::values::add_value;
use std::alloc::{AllocError, Global};
use unicode_width::UnicodeWidthStr;
use ws_written::Value;

/// Adds a cell of a table. A text stands without quotes if it cannot be taken for anything else.
pub fn add_cell(out: &mut Text, value: &Value) {
    match value {
        Value::Text(text) => {
            if is_bare(text.as_str()) {
                return out.push_str(text.as_str());
            }
            add_quoted(out, text.as_str())
        }
        _ => add_value(out, value),
    }
}

// Whether a text without quotes cannot be taken for another value, and all its characters can be seen.
fn is_bare(text: &str) -> bool {
    !text.is_empty()
        && text.trim().len() == text.len()
        && !text.starts_with('?')
        && !looks_like_number(text)
        && !text.chars().any(|c| c == '"' || c == '\\' || is_control(c))
}

fn looks_like_number(text: &str) -> bool {
    let digits = text.strip_prefix("-").unwrap_or(text);
    !digits.is_empty() && digits.bytes().all(|b| b.is_ascii_digit())
}

/// A table: columns, and rows of cells in their printed form.
#[derive(Drop)]
pub struct Table {
    alloc: Global,
    columns: Vec<TableColumn>,
    rows: usize,
}

#[derive(Drop)]
struct TableColumn {
    cells: Vec<String>,
    width: usize,
    numbers: bool,
}

impl Table {
    /// A table without columns.
    pub fn new(alloc: Global) -> Table {
        Table {
            alloc,
            columns: Vec::new(alloc),
            rows: 0,
        }
    }

    /// Adds a column with this name.
    pub fn add_column(&mut self, name: &str) -> Result<(), AllocError> {
        let mut cells = Vec::new(self.alloc);
        cells.push(String::from_str(self.alloc, name)?)?;
        self.columns.push(TableColumn {
            cells,
            width: name.width(),
            numbers: true,
        })?;
        Ok(())
    }

    /// Adds a row with a value for each column. Values for which there is no column are left out.
    pub fn add_row(&mut self, values: &[Value]) -> Result<(), AllocError> {
        let alloc = self.alloc;
        for (column, value) in self.columns.iter_mut().zip(values) {
            let mut cell = Text::new(alloc);
            add_cell(&mut cell, value);
            let cell = cell.done()?;
            column.add(cell, is_number(value))?;
        }
        self.rows = self.rows.saturating_add(1);
        Ok(())
    }

    /// The number of rows.
    pub fn rows(&self) -> usize {
        self.rows
    }

    /// Adds the lines of the table: the names, a rule of `-`, and the rows.
    pub fn add_to(&self, out: &mut Lines) {
        out.made(self.line(0));
        out.made(self.ruled());
        for row in 0..self.rows {
            out.made(self.line(row.saturating_add(1)));
        }
    }

    // The line of a row. Row 0 has the names.
    fn line(&self, row: usize) -> Result<String, AllocError> {
        let mut line = Text::new(self.alloc);
        let mut gap = 0usize;
        for column in self.columns.iter() {
            add_times(&mut line, ' ', gap);
            gap = column.add_at(&mut line, row, 0 < self.rows)?;
        }
        line.done()
    }

    fn ruled(&self) -> Result<String, AllocError> {
        let mut line = Text::new(self.alloc);
        for (place, column) in self.columns.iter().enumerate() {
            if 0 < place {
                line.push_str("  ");
            }
            add_times(&mut line, '-', column.width);
        }
        line.done()
    }
}

impl TableColumn {
    fn add(&mut self, cell: String, number: bool) -> Result<(), AllocError> {
        self.width = self.width.max(cell.as_str().width());
        self.numbers = self.numbers && number;
        self.cells.push(cell)?;
        Ok(())
    }

    // Adds the cell of a row, and returns the number of blanks before the next column. Numbers are aligned to the right.
    fn add_at(&self, line: &mut Text, row: usize, has_rows: bool) -> Result<usize, AllocError> {
        let Some(cell) = self.cells.get(row) else {
            return Ok(0);
        };
        let spare = self.width.saturating_sub(cell.as_str().width());
        if self.numbers && has_rows {
            add_times(line, ' ', spare);
            line.push_str(cell.as_str());
            return Ok(2);
        }
        line.push_str(cell.as_str());
        Ok(spare.saturating_add(2))
    }
}

fn is_number(value: &Value) -> bool {
    match value {
        Value::Number(_) => true,
        _ => false,
    }
}

pub(crate) fn add_times(out: &mut Text, letter: char, times: usize) {
    for _ in 0..times {
        out.push(letter);
    }
}

//! The rows of a text, cell by cell, each with the line that it begins in.

use crate::written::count_ends;
use std::alloc::{AllocError, Global};
use ws_print::Text;

/// What is wrong with the quotes of a text, and on which line.
#[derive(Clone, Copy, PartialEq, Eq)]
pub enum CsvFault {
    /// The quote opened on this line is not closed.
    Open(u64),
    /// After the quote closed on this line, something follows that does not end the cell.
    After(u64),
}

/// A row: the line where it begins, and its cells.
#[derive(Drop)]
pub struct CsvRow {
    pub line: u64,
    pub cells: Vec<String>,
}

/// Reads rows, one after the other. Lines without a cell are skipped.
#[derive(Drop)]
pub struct CsvReader<'a> {
    alloc: Global,
    rest: &'a str,
    line: u64,
    separator: char,
    faults: Vec<CsvFault>,
}

// The text up to a place, and the rest of it.
fn cut(text: &str, place: usize) -> (&str, &str) {
    match text.split_at_checked(place) {
        Some(parts) => parts,
        None => (text, ""),
    }
}

impl<'a> CsvReader<'a> {
    /// A reader at the beginning of a text, which may have a byte order mark.
    pub fn over(alloc: Global, text: &'a str, separator: char) -> CsvReader<'a> {
        CsvReader {
            alloc,
            rest: text.strip_prefix("\u{feff}").unwrap_or(text),
            line: 1,
            separator,
            faults: Vec::new(alloc),
        }
    }

    /// The faults of quotes so far, in order.
    pub fn faults(&self) -> &[CsvFault] {
        self.faults.as_slice()
    }

    /// The next row; None at the end.
    pub fn next_row(&mut self) -> Result<Option<CsvRow>, AllocError> {
        for _ in 0..u64::MAX {
            if self.rest.is_empty() {
                break;
            }
            let row = self.row()?;
            if !is_blank(row.cells.as_slice()) {
                return Ok(Some(row));
            }
        }
        Ok(None)
    }

    // The cells up to the end of the line.
    fn row(&mut self) -> Result<CsvRow, AllocError> {
        let line = self.line;
        let mut cells = Vec::new(self.alloc);
        for _ in 0..u64::MAX {
            cells.push(self.cell()?)?;
            match self.rest.strip_prefix(self.separator) {
                Some(rest) => self.rest = rest,
                None => break,
            }
        }
        self.end_line();
        Ok(CsvRow { line, cells })
    }

    fn end_line(&mut self) {
        self.rest = self.rest.strip_prefix("\r").unwrap_or(self.rest);
        if let Some(rest) = self.rest.strip_prefix("\n") {
            self.rest = rest;
            self.line = self.line.saturating_add(1);
        }
    }

    fn cell(&mut self) -> Result<String, AllocError> {
        match self.rest.strip_prefix("\"") {
            Some(rest) => {
                self.rest = rest;
                self.quoted_cell()
            }
            None => self.plain_cell(),
        }
    }

    // The length of a cell without quotes.
    fn length_of_cell(&self) -> usize {
        let separator = self.separator;
        let end = self.rest.find(|c: char| c == separator || c == '\n');
        end.unwrap_or(self.rest.len())
    }

    fn plain_cell(&mut self) -> Result<String, AllocError> {
        let (cell, rest) = cut(self.rest, self.length_of_cell());
        self.rest = rest;
        String::from_str(self.alloc, cell.trim_end_matches('\r'))
    }

    // The cell after an opening quote.
    fn quoted_cell(&mut self) -> Result<String, AllocError> {
        let open = self.line;
        let mut cell = Text::new(self.alloc);
        for _ in 0..u64::MAX {
            let Some((part, rest)) = self.rest.split_once('"') else {
                let rest = self.rest;
                self.faults.push(CsvFault::Open(open))?;
                self.add_part(&mut cell, rest);
                self.rest = "";
                return cell.done();
            };
            self.add_part(&mut cell, part);
            self.rest = rest;
            match rest.strip_prefix("\"") {
                Some(after) => {
                    cell.push('"');
                    self.rest = after;
                }
                None => break,
            }
        }
        self.pass_stray()?;
        cell.done()
    }

    // Adds a part of a quoted cell, and counts the lines that end in it.
    fn add_part(&mut self, cell: &mut Text, part: &str) {
        self.line = self.line.saturating_add(count_ends(part.as_bytes()));
        cell.push_str(part)
    }

    // Skips what stands after a closing quote and does not belong there.
    fn pass_stray(&mut self) -> Result<(), AllocError> {
        let ends = match self.rest.chars().next() {
            None => true,
            Some(letter) => letter == self.separator || letter == '\r' || letter == '\n',
        };
        if ends {
            return Ok(());
        }
        self.faults.push(CsvFault::After(self.line))?;
        self.rest = cut(self.rest, self.length_of_cell()).1;
        Ok(())
    }
}

// Whether the row is a line without a cell.
fn is_blank(cells: &[String]) -> bool {
    match cells {
        [cell] => cell.is_empty(),
        _ => false,
    }
}

//! The rows of a file as tuples, or all their faults.

use crate::fitting::Fitted;
use crate::forms::Form;
use crate::loading::{Loading, RowFault};
use crate::readers::{CsvFault, CsvReader};
use crate::refusing::faults;
use std::alloc::{AllocError, Global};
use ws_fault::Refusal;
use ws_print::{Lines, Text, add_count};
use ws_written::{NewFact, Unknown};

/// A row, and its tuple.
#[derive(Drop)]
pub struct LoadedRow {
    pub line: u64,
    /// The number of the row after the first line, from 1.
    pub row: u64,
    pub fact: NewFact,
}

/// The tuples of a file.
#[derive(Drop)]
pub struct Loaded {
    pub rows: Vec<LoadedRow>,
    /// The number of rows skipped because of an empty cell.
    pub skipped: u64,
}

/// The tuples of the rows that `reader` has left, or all faults of the file, by line. `standing` is in order; `path` is the file
/// as the curator gave it.
pub fn facts_of(
    alloc: Global,
    reader: &mut CsvReader<'_>,
    form: &Form,
    fitted: &Fitted,
    standing: &[Unknown],
    path: &str,
) -> Result<Loaded, Refusal> {
    let mut loading = Loading::of(alloc, form, fitted, standing);
    for number in 1..u64::MAX {
        let Some(row) = reader.next_row()? else {
            break;
        };
        loading.add_row(number, &row)?;
    }
    let (loaded, found) = loading.parts();
    let all = all_faults(alloc, reader.faults(), found.as_slice())?;
    if all.is_empty() {
        return Ok(loaded);
    }
    refused(alloc, path, fitted.width, all)
}

// The hint for a header of one cell.
const ONE_CELL: &str =
    "the header is one cell; if semicolons or tabs separate the cells: --separator \";\", or tab";

// If the header has one cell, another character may separate the cells.
fn hint_for(alloc: Global, width: usize) -> Result<Option<String>, AllocError> {
    if width == 1 {
        return Ok(Some(String::from_str(alloc, ONE_CELL)?));
    }
    Ok(None)
}

// Refuses the file, whose header has `width` cells, with all its faults.
fn refused(alloc: Global, path: &str, width: usize, all: Vec<String>) -> Result<Loaded, Refusal> {
    let hint = hint_for(alloc, width)?;
    let mut words = Text::new(alloc);
    write!(words, "{path} has ");
    add_count(&mut words, all.len(), "fault");
    words.push_str("; nothing was loaded");
    let words = words.done()?;
    faults(words, hint, all)
}

// All faults by line; on a line, faults of quotes come first. Both lists are in the order of the file.
fn all_faults(
    alloc: Global,
    quotes: &[CsvFault],
    rows: &[RowFault],
) -> Result<Vec<String>, AllocError> {
    let mut all = Lines::new(alloc);
    let mut quotes = quotes;
    for fault in rows {
        quotes = add_quotes(alloc, &mut all, quotes, fault.line);
        all.made(told(alloc, fault.line, fault.words.as_str()));
    }
    add_quotes(alloc, &mut all, quotes, u64::MAX);
    all.done()
}

// Adds the faults of quotes up to line `last`, and returns the others.
fn add_quotes<'a>(
    alloc: Global,
    all: &mut Lines,
    quotes: &'a [CsvFault],
    last: u64,
) -> &'a [CsvFault] {
    for (place, fault) in quotes.iter().enumerate() {
        let (line, words) = match fault {
            CsvFault::Open(line) => (*line, "a quote is not closed"),
            CsvFault::After(line) => (*line, "something follows a closing quote"),
        };
        if last < line {
            return quotes.get(place..).unwrap_or(quotes);
        }
        all.made(told(alloc, line, words));
    }
    &[]
}

fn told(alloc: Global, line: u64, words: &str) -> Result<String, AllocError> {
    format!(in alloc; "line {line}: {words}")
}

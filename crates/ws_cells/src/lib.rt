//! Rows of comma-separated values, on their way into a relation and out of it.
//!
//! `form_of` reads the words of `load`, `text_of` the bytes of its file, and `fit` compares its first line with the relation.
//! `facts_of` turns its rows into tuples to insert, or returns all faults by line and row. `add_csv_cell` writes a cell.
//!
//! The reader is our own, because each fault of a quote is reported with its line, and because any character may separate cells.
#![tactic(auto)]

mod cells;
mod columns;
mod comparing;
mod creating;
mod fitting;
mod forms;
mod loading;
mod matching;
mod readers;
mod refusing;
mod rows;
mod values;
mod written;

pub use crate::fitting::{Fitted, fit};
pub use crate::forms::{Empty, Form, form_of, separator_of};
pub use crate::matching::FittedColumn;
pub use crate::readers::{CsvFault, CsvReader, CsvRow};
pub use crate::rows::{Loaded, LoadedRow, facts_of};
pub use crate::written::{add_csv_cell, text_of};

//! What leaves a workspace: `export` as comma-separated values, SQL or lines of JSON, `graph` in DOT, and `page`, one file of
//! HTML.
//!
//! Each call returns the lines of its text. A line may contain line feeds if a text does.
#![tactic(auto)]

mod csv;
mod exporting;
mod graphs;
mod page_log;
mod page_mappings;
mod page_questions;
mod page_tables;
mod page_unknowns;
mod pages;
mod row_objects;
mod sql;
mod style;
mod texts;

pub use crate::exporting::{export, export_word};
pub use crate::graphs::graph;
pub use crate::pages::page;

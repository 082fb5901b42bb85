//! The forms of statements: the statement that the words of a line make, read from the left, or what is missing at the first word
//! that does not fit.
#![tactic(auto)]

mod cursor;
mod faults;
mod mappings;
mod parts;
mod raw;
mod statements;
mod words;

pub use crate::cursor::Words;
pub use crate::faults::FormRefusal;
pub use crate::mappings::right_at;
pub use crate::parts::{colon_at, name_at, open_at};
pub use crate::raw::{RawChoice, RawOperation, RawStatement, Section};
pub use crate::statements::{choice_at, statement_at, whole_fact};
pub use crate::words::{Quoted, RawFact, RawFactList, RawMapping, Word};
pub use def_language::Wanted;

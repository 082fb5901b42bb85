//! Statements as they are written, with the names of relations and variables.

use crate::words::{RawFact, RawFactList, RawMapping};
use base_types::{Name, Null, Value};

/// The operation of an update.
#[derive(Debug, Drop)]
pub enum RawOperation {
    Insert(RawFact),
    Delete(RawFact),
    Replace(Null, Value),
    Enact(RawMapping),
}

/// The choice of an answer.
#[derive(Debug, Drop)]
pub enum RawChoice {
    Expand,
    Unify(RawFact),
    Delete(RawFactList),
}

/// A statement: the header with its format, a relation with its name and columns, a mapping, a tuple of
/// the base, an update with its label, curator and operation, an answer with its label, or the end.
#[derive(Debug, Drop)]
pub enum RawStatement {
    Header(u8),
    Relation(Name, i64),
    Mapping(RawMapping),
    Base(RawFact),
    Update(Name, Name, RawOperation),
    Answer(Name, RawChoice),
    End,
}

/// The sections of a session, in their order.
#[derive(Clone, Copy, Debug, PartialEq, Eq)]
pub enum Section {
    Beginning,
    Relations,
    Mappings,
    Tuples,
    Updates,
    Ended,
}

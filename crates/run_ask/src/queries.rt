//! Conjunctive queries, as they are written and over the relations of a schema.

use base_types::{AtomList, List, NameList, Row};
use lang_schema::RawAtomList;

/// Variables by number.
pub type VarList = List<u16>;

/// Rows of values.
pub type RowList = List<Row>;

/// A query as it is written: the names of its head's variables, and the atoms of its body.
#[derive(Debug, Drop)]
pub struct RawAsk {
    pub head: NameList,
    pub body: RawAtomList,
}

/// A conjunctive query: the variables of its head, and the atoms of its body, which hold together. Variables are
/// numbered from 0 by first occurrence in the body.
#[derive(Debug, Drop)]
pub struct Ask {
    pub head: VarList,
    pub body: AtomList,
}

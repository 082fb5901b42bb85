//! Tuples of relations.

use crate::values::{NewValue, Value};

/// A tuple of a relation, with a value for each of its columns.
pub struct Fact {
    pub relation: u32,
    pub values: Vec<Value>,
}

impl Drop for Fact {
    fn drop(self) {
        let Fact {
            relation: _,
            values: _,
        } = self;
    }
}

/// A tuple that is to be inserted.
pub struct NewFact {
    pub relation: u32,
    pub values: Vec<NewValue>,
}

impl Drop for NewFact {
    fn drop(self) {
        let NewFact {
            relation: _,
            values: _,
        } = self;
    }
}

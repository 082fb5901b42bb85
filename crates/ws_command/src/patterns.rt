//! Tuples of a command in which `_` may stand.

use ws_written::{NewValue, Value};

/// A tuple in which `_`, here `None`, stands for any value.
#[derive(Drop)]
pub struct Pattern {
    pub relation: u32,
    pub values: Vec<Option<Value>>,
}

/// The second tuple of `replace`, in which `_`, here `None`, keeps the value of the first tuple.
#[derive(Drop)]
pub struct Replacement {
    pub relation: u32,
    pub values: Vec<Option<NewValue>>,
}

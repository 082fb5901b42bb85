//! Updates, each with its number and its budget.

use crate::facts::{Fact, NewFact};
use crate::values::{Unknown, Value};

/// The budget of an update whose line gives none, in steps.
pub const STEPS: u32 = 300;

/// What an update does.
#[derive(Drop)]
pub enum Update {
    Insert(Vec<NewFact>),
    Delete(Vec<Fact>),
    /// `replace ?U.P with V`: puts the value in the place of the unknown, in every tuple.
    Fill(Unknown, Value),
    /// `replace F with G`: the second tuple is inserted, then the first is deleted.
    Change(Fact, NewFact),
    /// `fix m(V, ..)`: repairs the mapping for these values of the variables that stand on both of its sides.
    Fix(String, Vec<Value>),
    /// `force m`: puts the mapping in force.
    Force(String),
    /// `drop m`: removes the mapping.
    Drop(String),
}

/// An update with its number and its budget of steps.
#[derive(Drop)]
pub struct NumberedUpdate {
    pub number: u32,
    pub steps: u32,
    pub update: Update,
}

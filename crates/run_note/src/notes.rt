//! What is noted of a step.

use base_types::{Sub, TupleList, Value};

/// A substitution: of one value for another, or by a unifier.
#[derive(Drop)]
pub enum Rewriting {
    Replaces { from: Value, to: Value },
    Unifies(Sub),
}

/// How a step comes to the tuples that it puts: they were handed in; they are the right side of the mapping of this number, for
/// this image of the left side; or they come by a substitution in others. A step that puts none has the first way.
#[derive(Drop)]
pub enum Way {
    Inserts,
    Generates { mapping: u16, image: TupleList },
    Rewrites(Rewriting),
}

/// The note of a step: its update and its number there, its way, the tuples that it deleted, and the tuples that it put.
#[derive(Drop)]
pub struct Note {
    pub update: u32,
    pub step: u32,
    pub way: Way,
    pub deleted: TupleList,
    pub puts: TupleList,
}

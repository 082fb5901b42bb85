//! Whether an operation may be admitted.
ghost use Rattle.std.specs.Prelude.{◌≡◌};
ghost use Rattle.base_types.specs.Meanings.{fact_of, null_of, operation_of};
ghost use Rattle.lang_session.specs.Admissible.{admits, fits_fact, fits_null};

use crate::values::{fits_null, fits_value, fits_values};
use base_types::{Operation, Tuple};
use lang_schema::Schema;

// Whether the relation of the tuple is known, has as many columns as the tuple has values, and these may stand in an operation.
fn fits_tuple(schema: &Schema, before: u32, tuple: &Tuple) -> bool
    ensures { result ≡ fits_fact schema.now before (fact_of tuple.now) }
{
    let Some(arity) = schema.arity(tuple.relation) else {
        return false;
    };
    if arity as usize != tuple.values.len() {
        return false;
    }
    fits_values(before, tuple.values.as_slice())
}

/// Whether an operation may be admitted after `before` updates: it fits the relations, its words are at most 256 bytes of UTF-8,
/// its nulls are named by their outer forms and come from those updates, and it puts no mapping in force.
pub fn admits(schema: &Schema, before: u32, operation: &Operation) -> bool
    ensures admits { result ≡ admits schema.now before (operation_of operation.now) }
{
    match operation {
        Operation::Insert(tuple) => fits_tuple(schema, before, tuple),
        Operation::Delete(tuple) => fits_tuple(schema, before, tuple),
        Operation::Replace(null, value) => fits_null(before, *null) && fits_value(before, value),
        Operation::Enact(_) => false,
    }
}

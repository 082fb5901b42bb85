//! The relations of a session by name, the checks of a mapping against them, the printed form of tuples and mappings, and lists
//! of names with a search by hash.
//!
//! Contracts see a `Schema` as the list of its relations, by number. They state the answer of each call by the definitions of
//! `def_language`, which speak of such a list. `Gives view result read` means: an answer, seen by `view`, is the one that the
//! definition `read` gives; a refusal other than `Memory` is the fault that `read` gives; and `Memory` may come in place of any
//! answer.
#![tactic(auto)]

mod mappings;
mod names;
mod numerals;
mod page;
mod plain;
mod printing;
mod refusals;
mod schema;
mod spelling;
mod statements;
mod variables;
mod written;

pub use crate::mappings::{check_added_mapping, numbered_atoms};
pub use crate::names::Names;
pub use crate::page::Page;
pub use crate::printing::{print_tuple, push_values};
pub use crate::refusals::SchemaRefusal;
pub use crate::schema::Schema;
pub use crate::statements::with_mapping;
pub use crate::written::{RawAtom, RawAtomList, RawAtoms, RawTerm, RawTermList};
pub use def_language::Which;

//! The types of the program: values, tuples, mappings, updates, and lists of these, with their meaning in the terms of
//! `def_chase`. The conventions below hold in every crate above.
//!
//! **Which types have a model.** Types with public fields (`Null`, `OuterName`, `Tuple`, `Atom`, `Mapping`, `Update`) and enums
//! (`Value`, `Term`, `Write`, `Operation`, `Choice`, `Direction`) have none. The meaning of each is a function of
//! `specs/Meanings.antt`, named after its result: `null_of`, `outer_null_of`, `datum_of`, `fact_of`, `slot_of`, `pattern_of`,
//! `rule_of`, `change_of`, `operation_of`, `choice_of`, `heading_of`. A type with private fields has an `impl Model`: a `List` is
//! its items and its spare room; a `Binding` and a `Sub` are lists. The functions that these lists mean are given by `known_of`
//! and `images_of` of `specs/Maps.antt`.
//!
//! **How a clause speaks of a list.** By `items`: `map fact_of tuples.now.items` are the tuples that a `TupleList` stands for. A
//! list inside another value is reached the same way: `t.values.items`.
//!
//! **Spare room.** `spare` is the number of items that a list takes before it asks for memory. Only `push`, `append` and
//! `reserve` speak of it. A clause never equates two values that hold lists. It equates their items or their meanings, such as
//! `self.new.items ≡ self.old.items` or `fact_of copy ≡ fact_of self.now`. So "equal" and "unchanged" say nothing about spare
//! room. A `Binding` and a `Sub` show none, so two of them may be equated directly.
//!
//! **Orders and tests.** Nulls, values and tuples are ordered by their meanings (`on fact_of fact_cmp`), so the keys of a
//! `BTreeSet<Tuple>` mean a repository without any sorting. Two values are `==` if the order ties them; different nulls differ.
//! If a definition asks whether a list has a tuple, the tuple that is searched for comes first: `same_fact asked held`.
//! `proofs/Exact.antt` shows that each such test is equality.
//!
//! **Memory.** A call that may take memory has a parameter `alloc: Global`, last in a method and first in a constructor or a free
//! function, or uses the allocator of its list. It returns `Result<_, Memory>`. Its clause `ok`, `same` or `value`, under `OnOk`
//! or `IfOk`, says what a success gives. No clause can say when `Memory` comes. A call that changes something says by `err`,
//! under `OnErr`, that nothing changed. `?` turns into `Memory` the allocator's errors, and also an error that hands an argument
//! back together with `Memory`.
//!
//! **Copies.** Each type that holds a list is `TryCopy`: `copy` gives a value with the same meaning.
//!
//! **Sets of tuples** are taken as `F: Facts`: a clause speaks of the list `F.tuples facts.now`, and most calls promise that it
//! is in order. `next_candidate` goes over the tuples of a relation, perhaps only those with a given value in a `Column`; the
//! meaning of a `Column` is `column_of` of `specs/Candidates.antt`.
#![tactic(auto)]

pub mod bindings;
pub mod candidates;
pub mod copying;
pub mod facts;
pub mod lists;
pub mod mappings;
pub mod nulls;
mod orders;
pub mod outer;
pub mod rows;
pub mod substitutions;
pub mod tuples;
pub mod updates;
pub mod values;

pub use crate::bindings::Binding;
pub use crate::candidates::{Candidates, Column, Opening, next_candidate};
pub use crate::copying::TryCopy;
pub use crate::facts::Facts;
pub use crate::lists::{List, Name, NameList, NumberList, Word};
pub use crate::mappings::{Atom, AtomList, Mapping, MappingList, Term, TermRow};
pub use crate::nulls::{Null, OuterName};
pub use crate::rows::{Row, ValueList};
pub use crate::substitutions::Sub;
pub use crate::tuples::{FORCE_RELATION, Tuple, TupleList};
pub use crate::updates::{
    Choice, ChoiceList, Direction, Operation, Update, UpdateList, Write, WriteList,
};
pub use crate::values::Value;
pub use def_memory::Memory;

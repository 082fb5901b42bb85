//! The head of a workspace's file: what stood at the last fold.

use base_types::{List, MappingList, Null, TupleList};
use ws_lines::{GivenList, TableList, Update};
use ws_names::Places;

/// An update that waits, with its table of places and the answers that it has.
#[derive(Drop)]
pub struct HeadWaiting {
    pub update: Update,
    pub places: Places,
    pub answers: GivenList,
}

/// Updates that wait, by number.
pub type HeadWaitingList = List<HeadWaiting>;

/// What stood at a fold: the greatest number of an update; the relations; the mappings, the first `in_force` in force in their
/// order and then the proposed ones; the names of the unknowns in their order; the tuples by names, in the order that they have
/// with the unknowns in that order; and the updates that wait. Mappings are numbered by their places here.
#[derive(Drop)]
pub struct Head {
    pub last: u32,
    pub tables: TableList,
    pub mappings: MappingList,
    pub in_force: usize,
    pub unknowns: List<Null>,
    pub base: TupleList,
    pub waits: HeadWaitingList,
}

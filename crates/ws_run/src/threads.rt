//! What a run of an update keeps as it goes.

use base_types::{ChoiceList, List, NumberList, Operation, WriteList};
use run_note::Note;
use std::alloc::Global;
use ws_lines::Source;
use ws_names::Places;

/// Why a step takes tuples away: the update named them; the mapping lacks what it wants for them; they were chosen at a question
/// of the mapping; or they became other tuples.
#[derive(Clone, Copy)]
pub enum Taking {
    Named,
    Needed(Source),
    Chosen(Source),
    Became,
}

/// A step: its note, the source that generated its tuples, if one did, and why it took tuples away.
#[derive(Drop)]
pub struct Step {
    pub note: Note,
    pub source: Option<Source>,
    pub taking: Taking,
}

/// Steps in their order.
pub type StepList = List<Step>;

/// An op that was done: its number, its operation, the choices that it took, and the number of nulls that it drew.
#[derive(Drop)]
pub struct Op {
    pub number: u32,
    pub operation: Operation,
    pub choices: ChoiceList,
    pub drawn: u32,
}

/// Ops in their order.
pub type OpList = List<Op>;

/// What a run keeps: the update's table, the places given in this run, the number of answers that it took, its steps and ops, and
/// their writes, by names, except in hidden relations.
#[derive(Drop)]
pub struct Thread {
    pub places: Places,
    pub given: NumberList,
    pub taken: u32,
    pub steps: StepList,
    pub ops: OpList,
    pub writes: WriteList,
}

impl Thread {
    /// A run at its beginning, with the update's table.
    pub fn new(alloc: Global, places: Places) -> Thread {
        Thread {
            places,
            given: NumberList::new(alloc),
            taken: 0,
            steps: StepList::new(alloc),
            ops: OpList::new(alloc),
            writes: WriteList::new(alloc),
        }
    }
}

//! The parts of a repair: the values of its variables, and its stage.
use base_types::{List, Null, Sub, TupleList, ValueList};
use chase_query::Query;
use chase_question::Question;

// The forward repair in hand: the mapping's number, the value of each of its variables, and the place of the right atom
// that comes next.
#[derive(Debug, Drop)]
pub(crate) struct Generation {
    pub(crate) mapping: u16,
    pub(crate) binding: ValueList,
    pub(crate) atom: usize,
}

// The step of an answer `Unify`: the unifier, the present query, the nulls to ask for after it, and the tuples found so far,
// answer by answer.
#[derive(Debug, Drop)]
pub(crate) struct Gathering {
    pub(crate) sub: Sub,
    pub(crate) query: Query,
    pub(crate) later: Vec<Null>,
    pub(crate) found: List<TupleList>,
}

// The stage of a repair: before the step of a right atom; within it, with this query; at a question; within the step of an answer
// `Unify` to the question; or at its end. Large parts that are rare are held by pointers.
#[derive(Debug, Drop)]
pub(crate) enum Stage {
    Generating,
    Querying(Query),
    Waiting(Box<Question>),
    Unifying(Box<Question>, Box<Gathering>),
    Repaired,
}

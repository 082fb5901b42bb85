//! The result of a run: how each update ended, where the run stopped, and the repository that it left.
use crate::ends::Outcome;
use base_types::{List, TupleList};
use chase_question::Question;

/// How an update ended: its outcome, and the numbers of steps and nulls of its attempt.
#[derive(Clone, Copy, Debug, PartialEq, Eq)]
pub struct Finish {
    pub outcome: Outcome,
    pub steps: u32,
    pub nulls: u32,
}

/// How updates ended, by number; the first has number 1.
pub type FinishList = List<Finish>;

/// Why a run stops at a question: there is no answer, or the answer does not fit.
#[derive(Clone, Copy, Debug, PartialEq, Eq)]
pub enum Lack {
    Missing,
    Misfit,
}

/// Where a run stopped: the update's number, the question at which it waits, and why.
#[derive(Debug, Drop)]
pub struct Stop {
    pub update: u32,
    pub question: Question,
    pub lack: Lack,
}

/// The result of a run: how the updates ended up to the first one that stopped, where that one stopped, if any did, and the
/// tuples of the repository in order.
#[derive(Debug, Drop)]
pub struct SessionResult {
    pub finishes: FinishList,
    pub stop: Option<Stop>,
    pub repository: TupleList,
}

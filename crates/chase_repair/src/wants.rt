//! What a repair wants next, and the progress of a step.
use chase_query::Query;
use chase_question::Question;

/// What a repair wants next: the reply to a query, the answer to a question, the next step, or nothing.
#[derive(Clone, Copy)]
pub enum RepairWant<'a> {
    Query(&'a Query),
    Question(&'a Question),
    NextStep,
    Finished,
}

/// The progress of a step: it asks a query, or it has ended.
#[derive(Clone, Copy, Debug)]
pub enum Progress {
    Asks,
    Ends,
}

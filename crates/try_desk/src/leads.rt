//! Leads, which say which seat of a desk comes next.
use crate::hands::{Move, Told};
use crate::tables::Side;
use try_cases::CaseRefusal;

/// A call by a seat.
#[derive(Clone, Copy, Debug)]
pub struct Turn {
    pub side: Side,
    pub call: Move,
}

/// A lead says which seat makes which call next, and hears what was answered. After any `Err` it is of no use any more.
pub trait Lead {
    /// The next call, given the call that each seat is due to make; None at the end.
    fn next(&mut self, due: [Move; 3]) -> Result<Option<Turn>, CaseRefusal>;

    /// Hears what the call answered.
    fn hear(&mut self, turn: Turn, told: Told) -> Result<(), CaseRefusal>;
}

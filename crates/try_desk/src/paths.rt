//! All orders in which the seats of a desk can come, one order after the other.
use crate::hands::{Move, Told};
use crate::leads::{Lead, Turn};
use crate::tables::Side;
use std::alloc::Global;
use try_cases::CaseRefusal;

// The seat that was taken, counted from 0, of `of` seats that could come.
#[derive(Clone, Copy)]
struct Pick {
    taken: usize,
    of: usize,
}

/// An order of the seats: a seat is picked at each of the first `calls` calls; at later calls the first seat comes that may. A
/// seat that was told to wait comes again after something was done. After any `Err` the order is of no use any more.
#[derive(Drop)]
pub struct Path {
    seats: usize,
    calls: usize,
    picks: Vec<Pick>,
    place: usize,
    waits: [bool; 3],
    is_over: bool,
}

impl Path {
    /// The first order of `seats` seats, from 1 to 3, which are picked at the first `calls` calls.
    pub fn new(alloc: Global, seats: usize, calls: usize) -> Path {
        Path {
            seats,
            calls,
            picks: Vec::new(alloc),
            place: 0,
            waits: [false, false, false],
            is_over: false,
        }
    }

    /// Goes on to the next order. The result is false if this was the last.
    pub fn advance(&mut self) -> Result<bool, CaseRefusal> {
        self.place = 0;
        self.waits = [false, false, false];
        self.is_over = false;
        match last_open(&mut self.picks) {
            Some(pick) => {
                self.picks.push(pick)?;
                Ok(true)
            }
            None => Ok(false),
        }
    }

    // Which of `of` seats is taken now, counted from 0.
    fn pick(&mut self, of: usize) -> Result<usize, CaseRefusal> {
        let place = self.place;
        self.place = place.saturating_add(1);
        if let Some(pick) = self.picks.as_slice().get(place) {
            return Ok(pick.taken);
        }
        if place < self.calls {
            self.picks.push(Pick { taken: 0, of })?;
        }
        Ok(0)
    }

    // Whether each seat may come.
    fn may_come(&self) -> [bool; 3] {
        let [first, second, third] = self.waits;
        [
            !first,
            2 <= self.seats && !second,
            3 <= self.seats && !third,
        ]
    }

    // The picked one of the seats that may come.
    fn side(&self, picked: usize) -> Side {
        match (self.may_come(), picked) {
            ([true, _, _], 0) => Side::First,
            ([true, true, _], 1) | ([false, true, _], 0) => Side::Second,
            _ => Side::Third,
        }
    }
}

// Removes picks from the end, up to the last one that can take a further seat, and gives that pick with the further seat taken.
fn last_open(picks: &mut Vec<Pick>) -> Option<Pick> {
    while let Some(Pick { taken, of }) = picks.pop() {
        let taken = taken.saturating_add(1);
        if taken < of {
            return Some(Pick { taken, of });
        }
    }
    None
}

// The number of seats that may come.
fn count(may: [bool; 3]) -> usize {
    let [first, second, third] = may;
    usize::from(first) + usize::from(second) + usize::from(third)
}

impl Lead for Path {
    fn next(&mut self, due: [Move; 3]) -> Result<Option<Turn>, CaseRefusal> {
        let open = count(self.may_come());
        if self.is_over || open == 0 {
            return Ok(None);
        }
        let picked = self.pick(open)?;
        let side = self.side(picked);
        let call = side.of(due);
        Ok(Some(Turn { side, call }))
    }

    fn hear(&mut self, turn: Turn, told: Told) -> Result<(), CaseRefusal> {
        match told {
            Told::Idle { .. } => self.waits = turn.side.with(self.waits),
            Told::Quiet => self.is_over = true,
            Told::Memory => return Err(CaseRefusal::Memory),
            Told::Stepped { .. } | Told::Stale { .. } | Told::Delivered { .. } => {
                self.waits = [false, false, false];
            }
            Told::Ticket { .. } | Told::Planned | Told::Back | Told::Unfit => {}
        }
        Ok(())
    }
}

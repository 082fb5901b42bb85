//! The three seats of a desk.
ghost use Rattle.std.specs.Prelude.{◌≡◌, ◌≤◌, [], All, length, map, vec_capacity};
ghost use Rattle.work_lock.specs.Seats.{place_of};
ghost use Rattle.work_desk.specs.Seats.{IsSeatOf};
ghost use Rattle.try_desk.specs.Hands.{IsTable, seats_on};

use crate::hands::{Hand, Move, Told, Work};
use std::sync::Wait;
use work_desk::{Board, Core, Desk};
use work_lock::Seat;

/// One of the three seats.
#[derive(Clone, Copy, Debug, PartialEq, Eq)]
pub enum Side {
    First,
    Second,
    Third,
}

impl Side {
    /// What belongs to the seat.
    pub fn of(self, all: [Move; 3]) -> Move {
        let [first, second, third] = all;
        match self {
            Side::First => first,
            Side::Second => second,
            Side::Third => third,
        }
    }

    /// The marked seats, with this one marked too.
    pub fn with(self, marked: [bool; 3]) -> [bool; 3] {
        let [first, second, third] = marked;
        match self {
            Side::First => [true, second, third],
            Side::Second => [first, true, third],
            Side::Third => [first, second, true],
        }
    }
}

/// The three seats of a desk, with what they have in hand.
pub struct Table<C: Core> {
    pub first: Hand<C>,
    pub second: Hand<C>,
    pub third: Hand<C>,
}

impl<C: Core> Table<C> {
    /// The table of the seats, with nothing in hand.
    pub fn of(_desk: &Desk<C>, mut seats: Vec<Seat<Board<C>>>) -> Table<C>
        requires three { length seats.items ≡ 3 }
        requires own { All (IsSeatOf C.over C.history _desk.now) seats.items }
        ensures own { IsTable C.over C.history C.is_snapshot C.is_plan _desk.now result }
        ensures seats { seats_on result ≡ seats.items }
    {
        let third = seats.remove(2);
        let second = seats.remove(1);
        let first = seats.remove(0);
        Table {
            first: Hand {
                seat: first,
                work: Work::Free,
            },
            second: Hand {
                seat: second,
                work: Work::Free,
            },
            third: Hand {
                seat: third,
                work: Work::Free,
            },
        }
    }

    /// Each seat's next call, if it gives no ticket back.
    pub fn due(&self) -> [Move; 3] {
        [self.first.due(), self.second.due(), self.third.due()]
    }

    /// Makes the call of the seat.
    pub fn go<R: Wait>(self, rt: &R, desk: &Desk<C>, side: Side, call: Move) -> (Table<C>, Told)
        requires own { IsTable C.over C.history C.is_snapshot C.is_plan desk.now self }
        ensures own { IsTable C.over C.history C.is_snapshot C.is_plan desk.now result.0 }
        ensures places { map place_of (seats_on result.0) ≡ map place_of (seats_on self) }
    {
        let Table {
            first,
            second,
            third,
        } = self;
        match side {
            Side::First => {
                let (first, told) = first.go(rt, desk, call);
                (
                    Table {
                        first,
                        second,
                        third,
                    },
                    told,
                )
            }
            Side::Second => {
                let (second, told) = second.go(rt, desk, call);
                (
                    Table {
                        first,
                        second,
                        third,
                    },
                    told,
                )
            }
            Side::Third => {
                let (third, told) = third.go(rt, desk, call);
                (
                    Table {
                        first,
                        second,
                        third,
                    },
                    told,
                )
            }
        }
    }

    /// The seats, in `room`, after tickets in hand are given back to the desk.
    pub fn into_seats<R: Wait>(
        self,
        rt: &R,
        desk: &Desk<C>,
        mut room: Vec<Seat<Board<C>>>,
    ) -> Vec<Seat<Board<C>>>
        requires own { IsTable C.over C.history C.is_snapshot C.is_plan desk.now self }
        requires empty { room.items ≡ [] }
        requires room { 3 ≤ vec_capacity room }
        ensures own { All (IsSeatOf C.over C.history desk.now) result.items }
        ensures places { map place_of result.items ≡ map place_of (seats_on self) }
    {
        let Table {
            first,
            second,
            third,
        } = self;
        room.push_reserved(first.into_seat(rt, desk));
        room.push_reserved(second.into_seat(rt, desk));
        room.push_reserved(third.into_seat(rt, desk));
        room
    }
}

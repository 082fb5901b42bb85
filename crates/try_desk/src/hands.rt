//! A seat of a desk with what it has in hand, and its moves.
ghost use Rattle.std.specs.Prelude.{◌≡◌};
ghost use Rattle.work_lock.specs.Seats.{place_of};
ghost use Rattle.work_desk.specs.Calls.{IsOutAt};
ghost use Rattle.work_desk.specs.Seats.{IsSeatOf};
ghost use Rattle.work_desk.specs.Tickets.{IsPlanFor};
ghost use Rattle.try_desk.specs.Hands.{IsHand};

use std::fmt;
use std::sync::Wait;
use work_desk::{Board, Core, Desk, Finished, Next, Ticket};
use work_lock::Seat;

/// What a seat has in hand.
pub enum Work<S, P> {
    /// Nothing.
    Free,
    /// A ticket.
    Given(Ticket<S>),
    /// A ticket, and its plan.
    Planned(Ticket<S>, P),
}

/// A seat with what it has in hand.
pub struct Hand<C: Core> {
    pub seat: Seat<Board<C>>,
    pub work: Work<C::Snapshot, C::Plan>,
}

/// A call by a seat.
#[derive(Clone, Copy, Debug, PartialEq, Eq)]
pub enum Move {
    Next,
    Evaluate,
    Finish,
    Back,
}

/// What a call answered.
#[derive(Clone, Copy, Debug, PartialEq, Eq)]
pub enum Told {
    /// A ticket of this number, for this update; `stamp` is the number of entries when it was given.
    Ticket {
        number: u64,
        update: u32,
        stamp: u64,
    },
    /// An answer was delivered to this update.
    Delivered {
        update: u32,
    },
    /// Nothing now; `in_flight` is the lowest update in flight.
    Idle {
        in_flight: u32,
    },
    /// Nothing any more.
    Quiet,
    /// The plan was made.
    Planned,
    /// The step was made, by this entry.
    Stepped {
        entry: u64,
    },
    /// This entry makes the plan stale.
    Stale {
        entry: u64,
    },
    /// The ticket was given back.
    Back,
    /// The seat cannot make this call with what it has in hand.
    Unfit,
    /// Memory ran out.
    Memory,
}

impl fmt::Display for Told {
    fn fmt<W: fmt::Write>(&self, f: &mut fmt::Formatter<W>) -> fmt::Result {
        match self {
            Told::Ticket {
                number,
                update,
                stamp,
            } => { write!(f, "ticket {number} of update {update}, stamp {stamp}") }
            Told::Delivered { update } => write!(f, "delivered to {update}"),
            Told::Idle { in_flight } => write!(f, "idle, {in_flight} in flight"),
            Told::Quiet => f.write_str("quiet"),
            Told::Planned => f.write_str("planned"),
            Told::Stepped { entry } => write!(f, "stepped, entry {entry}"),
            Told::Stale { entry } => write!(f, "stale, entry {entry}"),
            Told::Back => f.write_str("back"),
            Told::Unfit => f.write_str("unfit"),
            Told::Memory => f.write_str("memory"),
        }
    }
}

impl<C: Core> Hand<C> {
    /// The seat's next call, if it gives no ticket back.
    pub fn due(&self) -> Move {
        match &self.work {
            Work::Free => Move::Next,
            Work::Given(_) => Move::Evaluate,
            Work::Planned(_, _) => Move::Finish,
        }
    }

    /// Makes the call.
    pub fn go<R: Wait>(self, rt: &R, desk: &Desk<C>, call: Move) -> (Hand<C>, Told)
        requires own { IsHand C.over C.history C.is_snapshot C.is_plan desk.now self }
        ensures own { IsHand C.over C.history C.is_snapshot C.is_plan desk.now result.0 }
        ensures place { place_of result.0.seat ≡ place_of self.seat }
    {
        let Hand { seat, work } = self;
        match work {
            Work::Free => match call {
                Move::Next => ask(rt, desk, seat),
                _ => (
                    Hand {
                        seat,
                        work: Work::Free,
                    },
                    Told::Unfit,
                ),
            },
            Work::Given(ticket) => match call {
                Move::Evaluate => evaluate(desk, seat, ticket),
                Move::Back => give_back(rt, desk, seat, ticket),
                _ => (
                    Hand {
                        seat,
                        work: Work::Given(ticket),
                    },
                    Told::Unfit,
                ),
            },
            Work::Planned(ticket, plan) => match call {
                Move::Finish => finish(rt, desk, seat, ticket, plan),
                Move::Back => {
                    C::drop_plan(plan);
                    give_back(rt, desk, seat, ticket)
                }
                _ => (
                    Hand {
                        seat,
                        work: Work::Planned(ticket, plan),
                    },
                    Told::Unfit,
                ),
            },
        }
    }

    /// Gives the seat, after a ticket in hand is given back to the desk.
    pub fn into_seat<R: Wait>(self, rt: &R, desk: &Desk<C>) -> Seat<Board<C>>
        requires own { IsHand C.over C.history C.is_snapshot C.is_plan desk.now self }
        ensures own { IsSeatOf C.over C.history desk.now result }
        ensures place { place_of result ≡ place_of self.seat }
    {
        let Hand { mut seat, work } = self;
        match work {
            Work::Free => {}
            Work::Given(ticket) => desk.give_back(rt, &mut seat, ticket),
            Work::Planned(ticket, plan) => {
                C::drop_plan(plan);
                desk.give_back(rt, &mut seat, ticket);
            }
        }
        seat
    }
}

// Asks for work.
fn ask<R: Wait, C: Core>(rt: &R, desk: &Desk<C>, mut seat: Seat<Board<C>>) -> (Hand<C>, Told)
    requires own { IsSeatOf C.over C.history desk.now seat }
    ensures own { IsHand C.over C.history C.is_snapshot C.is_plan desk.now result.0 }
    ensures place { place_of result.0.seat ≡ place_of seat }
{
    match desk.next(rt, &mut seat) {
        Ok(Next::Ticket(ticket)) => given(desk, seat, ticket),
        Ok(Next::Delivered { update }) => free(desk, seat, Told::Delivered { update }),
        Ok(Next::Idle { in_flight }) => free(desk, seat, Told::Idle { in_flight }),
        Ok(Next::Quiet) => free(desk, seat, Told::Quiet),
        Err(_) => free(desk, seat, Told::Memory),
    }
}

// The seat with the ticket in hand.
fn given<C: Core>(
    _desk: &Desk<C>,
    seat: Seat<Board<C>>,
    ticket: Ticket<C::Snapshot>,
) -> (Hand<C>, Told)
    requires own { IsSeatOf C.over C.history _desk.now seat }
    requires out { IsOutAt C.over C.is_snapshot _desk.now seat ticket }
    ensures own { IsHand C.over C.history C.is_snapshot C.is_plan _desk.now result.0 }
    ensures place { place_of result.0.seat ≡ place_of seat }
{
    let told = Told::Ticket {
        number: ticket.number(),
        update: ticket.update(),
        stamp: ticket.stamp(),
    };
    let work = Work::Given(ticket);
    (Hand { seat, work }, told)
}

// The seat with nothing in hand, and what the call answered.
fn free<C: Core>(_desk: &Desk<C>, seat: Seat<Board<C>>, told: Told) -> (Hand<C>, Told)
    requires own { IsSeatOf C.over C.history _desk.now seat }
    ensures own { IsHand C.over C.history C.is_snapshot C.is_plan _desk.now result.0 }
    ensures place { place_of result.0.seat ≡ place_of seat }
{
    let work = Work::Free;
    (Hand { seat, work }, told)
}

// Makes the plan of the ticket.
fn evaluate<C: Core>(
    desk: &Desk<C>,
    seat: Seat<Board<C>>,
    ticket: Ticket<C::Snapshot>,
) -> (Hand<C>, Told)
    requires own { IsSeatOf C.over C.history desk.now seat }
    requires out { IsOutAt C.over C.is_snapshot desk.now seat ticket }
    ensures own { IsHand C.over C.history C.is_snapshot C.is_plan desk.now result.0 }
    ensures place { place_of result.0.seat ≡ place_of seat }
{
    match desk.evaluate(&ticket) {
        Ok(plan) => (
            Hand {
                seat,
                work: Work::Planned(ticket, plan),
            },
            Told::Planned,
        ),
        Err(_) => (
            Hand {
                seat,
                work: Work::Given(ticket),
            },
            Told::Memory,
        ),
    }
}

// Hands the plan in.
fn finish<R: Wait, C: Core>(
    rt: &R,
    desk: &Desk<C>,
    mut seat: Seat<Board<C>>,
    ticket: Ticket<C::Snapshot>,
    plan: C::Plan,
) -> (Hand<C>, Told)
    requires own { IsSeatOf C.over C.history desk.now seat }
    requires out { IsOutAt C.over C.is_snapshot desk.now seat ticket }
    requires plan { IsPlanFor C.is_snapshot C.is_plan ticket plan }
    ensures own { IsHand C.over C.history C.is_snapshot C.is_plan desk.now result.0 }
    ensures place { place_of result.0.seat ≡ place_of seat }
{
    match desk.finish(rt, &mut seat, ticket, plan) {
        Ok(Finished::Stepped { entry }) => (
            Hand {
                seat,
                work: Work::Free,
            },
            Told::Stepped { entry },
        ),
        Ok(Finished::Stale { entry }) => (
            Hand {
                seat,
                work: Work::Free,
            },
            Told::Stale { entry },
        ),
        Err((ticket, _)) => (
            Hand {
                seat,
                work: Work::Given(ticket),
            },
            Told::Memory,
        ),
    }
}

// Gives the ticket back.
fn give_back<R: Wait, C: Core>(
    rt: &R,
    desk: &Desk<C>,
    mut seat: Seat<Board<C>>,
    ticket: Ticket<C::Snapshot>,
) -> (Hand<C>, Told)
    requires own { IsSeatOf C.over C.history desk.now seat }
    requires out { IsOutAt C.over C.is_snapshot desk.now seat ticket }
    ensures own { IsHand C.over C.history C.is_snapshot C.is_plan desk.now result.0 }
    ensures place { place_of result.0.seat ≡ place_of seat }
{
    desk.give_back(rt, &mut seat, ticket);
    (
        Hand {
            seat,
            work: Work::Free,
        },
        Told::Back,
    )
}

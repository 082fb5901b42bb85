//! A desk: a board inside a lock with turns.
ghost use Rattle.std.specs.Prelude.{◌≡◌, ◌<◌, ◌≤◌, length, IfOk, IfErr};

use crate::board::Board;
use crate::cores::Core;
use crate::tickets::{Finished, Next, Stretch, Ticket};
use def_memory::Memory;
use std::alloc::Global;
use std::snapshot::Snapshot;
use std::sync::Wait;
use std::time::Clock;
use work_lock::{Seat, StampLock, new};

/// A core that seats share: each asks for tickets, plans their steps outside the lock, and hands the plans in. For contracts it
/// keeps the core that it was opened over.
pub struct Desk<C: Core> {
    lock: StampLock<Board<C>>,
    alloc: Global,
    opened: Snapshot<C>,
    // Whether there is one seat, so that nobody else waits for the lock.
    pub(crate) alone: bool,
}

impl<C: Core> Desk<C> {
    ghost use Rattle.work_lock.specs.Seats.{place_of, AreSeats, AllSaw};
    ghost use Rattle.work_desk.specs.Seats.{desk_lock, core_of, opening_by, IsSeatOf};
    ghost use Rattle.def_history.specs.Cores.{IsLegalOver};
    ghost use Rattle.work_desk.specs.Closing.{AllSeatsOf, Closes, ClosesSerially};
    ghost use Rattle.work_desk.specs.Tickets.{IsPlanFor, IfGiven};
    ghost use Rattle.work_desk.specs.Calls.{IsOutAt, AnswersNext, Stretches, Finishes, TakesBack};

    /// A desk over the core, with `seats` seats, from 1 to 16, numbered from 0 in order. Each seat has seen the opening, which
    /// has the core's whole history. If memory runs out, the core comes back with the error.
    pub fn new(
        alloc: Global,
        core: C,
        seats: u64,
    ) -> Result<(Desk<C>, Vec<Seat<Board<C>>>), (C, Memory)>
        requires count { (1 ≤ seats) × (seats ≤ 16) }
        ensures core { IfOk result (λ r. core_of r.0 ≡ core) }
        ensures seats { IfOk result (λ r. AreSeats (desk_lock r.0) seats r.1.items) }
        ensures saw { IfOk result (λ r. AllSaw (opening_by C.over C.history core) r.1.items) }
        ensures legal { IfOk result (λ r. IsLegalOver (C.over core) (C.history core)) }
        ensures over { IfErr result (λ e. C.over e.0 ≡ C.over core) }
        ensures history { IfErr result (λ e. C.history e.0 ≡ C.history core) }
    {
        let opened = Snapshot::of(&core);
        match new(alloc, Board::new(alloc, core), seats) {
            Ok((lock, dealt)) => Ok((
                Desk {
                    lock,
                    alloc,
                    opened,
                    alone: seats == 1,
                },
                dealt,
            )),
            Err((board, memory)) => Err((board.into_core(), memory)),
        }
    }

    /// The first work that there is: a ticket for the lowest ready update that is not in flight, a delivery to the lowest update
    /// that waits for a recorded answer, nothing now, or nothing any more.
    pub fn next<R: Wait>(
        &self,
        rt: &R,
        seat: &mut Seat<Board<C>>,
    ) -> Result<Next<Ticket<C::Snapshot>>, Memory>
        requires own { IsSeatOf C.over C.history self.now seat.old }
        ensures own { IsSeatOf C.over C.history self.now seat.new }
        ensures place { place_of seat.new ≡ place_of seat.old }
        ensures next { AnswersNext C.over self.now seat.old seat.new result }
        ensures ticket { IfOk result (IfGiven (IsOutAt C.over C.is_snapshot self.now seat.new)) }
    {
        let (turn, mut board) = self.lock.open(rt, seat);
        let answer = board.next(self.alloc, seat.number());
        self.lock.close_turn(seat, turn, board);
        answer
    }

    /// Makes up to `most` moves in one turn. A move delivers an answer, if the core says that one must come first; otherwise it
    /// makes the step of the lowest ready update that is not in flight. It ends early if no move is left or, if there are other
    /// seats, after a step that was not small. If memory runs out, the moves that were made stay.
    pub fn stretch<R: Wait + Clock>(
        &self,
        rt: &R,
        seat: &mut Seat<Board<C>>,
        most: u64,
    ) -> Result<Stretch, Memory>
        requires own { IsSeatOf C.over C.history self.now seat.old }
        ensures own { IsSeatOf C.over C.history self.now seat.new }
        ensures place { place_of seat.new ≡ place_of seat.old }
        ensures stretch { Stretches C.over self.now seat.old seat.new result }
    {
        let (turn, mut board) = self.lock.open(rt, seat);
        let stretch = board.stretch(rt, self.alloc, seat.number(), most, self.alone);
        self.lock.close_turn(seat, turn, board);
        stretch
    }

    /// Plans the step of the ticket's update at the state that the ticket was given at. It needs neither the lock nor the
    /// runtime.
    pub fn evaluate(&self, ticket: &Ticket<C::Snapshot>) -> Result<C::Plan, Memory>
        ensures plan { IfOk result (IsPlanFor C.is_snapshot C.is_plan ticket.now) }
    {
        C::plan(self.alloc, &ticket.snapshot)
    }

    /// Hands the plan in, which spends the ticket. The step is made, unless an entry since the ticket was given makes the plan
    /// stale; no query is evaluated. If memory runs out, the ticket comes back and is still out.
    pub fn finish<R: Wait>(
        &self,
        rt: &R,
        seat: &mut Seat<Board<C>>,
        ticket: Ticket<C::Snapshot>,
        plan: C::Plan,
    ) -> Result<Finished, (Ticket<C::Snapshot>, Memory)>
        requires own { IsSeatOf C.over C.history self.now seat.old }
        requires out { IsOutAt C.over C.is_snapshot self.now seat.old ticket }
        requires plan { IsPlanFor C.is_snapshot C.is_plan ticket plan }
        ensures own { IsSeatOf C.over C.history self.now seat.new }
        ensures place { place_of seat.new ≡ place_of seat.old }
        ensures finish { Finishes C.over (C.stale_since plan) (C.is_plan plan) self.now
            seat.old seat.new ticket result }
        ensures out { IfErr result (λ e. IsOutAt C.over C.is_snapshot self.now seat.new e.0) }
        ensures same { IfErr result (λ e. e.0 ≡ ticket) }
    {
        let (turn, mut board) = self.lock.open(rt, seat);
        board.known();
        let finished = board.finish(self.alloc, seat.number(), ticket, plan);
        self.lock.close_turn(seat, turn, board);
        finished
    }

    /// Gives the ticket back unfinished, which spends it.
    pub fn give_back<R: Wait>(&self, rt: &R, seat: &mut Seat<Board<C>>, ticket: Ticket<C::Snapshot>)
        requires own { IsSeatOf C.over C.history self.now seat.old }
        requires out { IsOutAt C.over C.is_snapshot self.now seat.old ticket }
        ensures own { IsSeatOf C.over C.history self.now seat.new }
        ensures place { place_of seat.new ≡ place_of seat.old }
        ensures back { TakesBack C.over self.now seat.old seat.new ticket }
    {
        let (turn, mut board) = self.lock.open(rt, seat);
        board.known();
        board.give_back(seat.number(), ticket);
        self.lock.close_turn(seat, turn, board);
    }

    /// Ends the desk and gives the core. It takes the seats that `new` gave, each once and in order of their numbers; none holds
    /// a turn. If the opening admitted the whole session and every seat is at rest, the core's history has the serial machine's
    /// result.
    pub fn close(self, seats: Vec<Seat<Board<C>>>) -> C
        requires some { 0 < length seats.items }
        requires seats { AreSeats (desk_lock self) (length seats.items) seats.items }
        requires own { AllSeatsOf C.over C.history self seats.items }
        ensures over { C.over result ≡ C.over (core_of self) }
        ensures closed { Closes C.over C.history (core_of self) result seats.items }
        ensures rest { ClosesSerially C.over C.history (core_of self) result seats.items }
    {
        let Desk {
            lock,
            alloc: _,
            opened: _,
            alone: _,
        } = self;
        lock.into_value(seats).into_core()
    }
}

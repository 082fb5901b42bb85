//! A desk as a bench, which workers work at.
ghost use Rattle.std.specs.Prelude.{IfOk};

use crate::board::Board;
use crate::cores::Core;
use crate::desk::Desk;
use crate::tickets::{Finished, Next, Stretch, Ticket};
use def_memory::Memory;
use std::sync::Wait;
use std::time::Clock;
use work_lock::Seat;
use work_loop::{Bench, Offer, Received};

impl<C: Core> Bench for Desk<C> {
    ghost use Rattle.def_record.specs.declared.made.Made.{Made};
    ghost use Rattle.def_record.specs.Makers.{sum_made_by};
    ghost use Rattle.work_lock.specs.Seats.{Place, place_of, number_of, seen_of};
    ghost use Rattle.def_record.specs.declared.item.Item.{Item};
    ghost use Rattle.def_history.specs.Cores.{Ground};
    ghost use Rattle.def_history.specs.PlainEntries.{PlainEntry};
    ghost use Rattle.work_desk.specs.Turns.{gifts, returns};
    ghost use Rattle.work_desk.specs.Seats.{IsSeatOf, IsResting};
    ghost use Rattle.work_desk.specs.Calls.{IsOutAt};
    ghost use Rattle.work_desk.specs.Tickets.{IsPlanFor};

    type Seat = Seat<Board<C>>;

    type Ticket = Ticket<C::Snapshot>;

    type Plan = C::Plan;

    ghost Lock = { Place };

    ghost Mark = { Made (Item Ground PlainEntry) };

    ghost owns = { IsSeatOf C.over C.history };

    ghost lock = { place_of };

    ghost seat_number = { number_of };

    ghost seen = { seen_of };

    ghost given = { λ s. sum_made_by gifts (number_of s) (seen_of s) };

    ghost spent = { λ s. sum_made_by returns (number_of s) (seen_of s) };

    ghost is_out = { IsOutAt C.over C.is_snapshot };

    ghost is_plan = { IsPlanFor C.is_snapshot C.is_plan };

    ghost rests = { IsResting };

    fn offer<R: Wait + Clock>(
        &self,
        rt: &R,
        seat: &mut Seat<Board<C>>,
        most: u64,
    ) -> Result<Offer<Ticket<C::Snapshot>>, Memory> {
        if self.alone {
            return self.offer_alone(rt, seat);
        }
        if most > 0 {
            let stretch = self.make(rt, seat, most)?;
            return Ok(Offer::Moved { more: stretch.more });
        }
        self.ask(rt, seat)
    }

    fn number(&self, ticket: &Ticket<C::Snapshot>) -> u64 {
        ticket.number
    }

    fn evaluate(&self, ticket: &Ticket<C::Snapshot>) -> Result<C::Plan, Memory> {
        Desk::evaluate(self, ticket)
    }

    fn finish<R: Wait>(
        &self,
        rt: &R,
        seat: &mut Seat<Board<C>>,
        ticket: Ticket<C::Snapshot>,
        plan: C::Plan,
    ) -> Result<Received, (Ticket<C::Snapshot>, Memory)> {
        match Desk::finish(self, rt, seat, ticket, plan) {
            Ok(finished) => Ok(received(finished)),
            Err(refused) => Err(refused),
        }
    }

    fn give_back<R: Wait>(&self, rt: &R, seat: &mut Seat<Board<C>>, ticket: Ticket<C::Snapshot>) {
        Desk::give_back(self, rt, seat, ticket);
    }
}

// How many steps a lone seat makes in one turn.
const AT_ONCE: u64 = 64;

impl<C: Core> Desk<C> {
    ghost use Rattle.work_loop.specs.Offers.{IfTicket, IfQuiet, tickets_in};
    ghost use Rattle.work_desk.specs.Seats.{IsSeatOf, IsResting};
    ghost use Rattle.work_desk.specs.Calls.{IsOutAt};
    ghost use Rattle.work_desk.specs.Offers.{HoldsMore};

    // The work for a lone seat. It makes its steps inside the lock itself, since nobody else waits for the lock.
    fn offer_alone<R: Wait + Clock>(
        &self,
        rt: &R,
        seat: &mut Seat<Board<C>>,
    ) -> Result<Offer<Ticket<C::Snapshot>>, Memory>
        requires own { IsSeatOf C.over C.history self.now seat.old }
        ensures own { IsSeatOf C.over C.history self.now seat.new }
        ensures holds { HoldsMore (tickets_in result) seat.old seat.new }
        ensures ticket { IfOk result (IfTicket (IsOutAt C.over C.is_snapshot self.now seat.new)) }
        ensures quiet { IfOk result (IfQuiet (IsResting seat.new)) }
    {
        let stretch = self.make(rt, seat, AT_ONCE)?;
        if stretch.made > 0 {
            return Ok(Offer::Moved { more: true });
        }
        self.ask(rt, seat)
    }

    // Makes steps in one turn, as `stretch` does. The seat holds as many tickets as before.
    fn make<R: Wait + Clock>(
        &self,
        rt: &R,
        seat: &mut Seat<Board<C>>,
        most: u64,
    ) -> Result<Stretch, Memory>
        requires own { IsSeatOf C.over C.history self.now seat.old }
        ensures own { IsSeatOf C.over C.history self.now seat.new }
        ensures holds { HoldsMore 0 seat.old seat.new }
    {
        self.stretch(rt, seat, most)
    }

    // The first work that there is, as `next` gives it.
    fn ask<R: Wait>(
        &self,
        rt: &R,
        seat: &mut Seat<Board<C>>,
    ) -> Result<Offer<Ticket<C::Snapshot>>, Memory>
        requires own { IsSeatOf C.over C.history self.now seat.old }
        ensures own { IsSeatOf C.over C.history self.now seat.new }
        ensures holds { HoldsMore (tickets_in result) seat.old seat.new }
        ensures ticket { IfOk result (IfTicket (IsOutAt C.over C.is_snapshot self.now seat.new)) }
        ensures quiet { IfOk result (IfQuiet (IsResting seat.new)) }
    {
        match self.next(rt, seat) {
            Ok(Next::Ticket(ticket)) => Ok(Offer::Ticket(ticket)),
            Ok(Next::Delivered { update: _ }) => Ok(Offer::Moved { more: true }),
            Ok(Next::Idle { in_flight: _ }) => Ok(Offer::Idle),
            Ok(Next::Quiet) => Ok(Offer::Quiet),
            Err(memory) => Err(memory),
        }
    }
}

// Whether the plan came in time or was stale.
fn received(finished: Finished) -> Received {
    match finished {
        Finished::Stepped { entry: _ } => Received::InTime,
        Finished::Stale { entry: _ } => Received::Stale,
    }
}

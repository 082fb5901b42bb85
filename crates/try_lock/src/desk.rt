// The desk: a board inside a lock, as a bench.
use crate::board::{Board, Ticket};
use def_memory::Memory;
use std::sync::Wait;
use std::time::Clock;
use work_lock::{Seat, StampLock};
use work_loop::{Bench, Offer, Received};

/// A board inside a lock.
pub struct Desk {
    pub lock: StampLock<Board>,
}

impl Bench for Desk {
    ghost use Rattle.def_record.specs.declared.made.Made.{Made};
    ghost use Rattle.work_lock.specs.Seats.{Place, place_of, number_of, seen_of};
    ghost use Rattle.try_lock.specs.declared.board.Event.{Event};
    ghost use Rattle.try_lock.specs.Events.{given_to, returned_by};
    ghost use Rattle.try_lock.specs.Own.{Owns, IsOut, IsPlan, Rests};

    type Seat = Seat<Board>;

    type Ticket = Ticket;

    // The ticket's number, squared.
    type Plan = u64;

    ghost Lock = { Place };

    ghost Mark = { Made Event };

    ghost owns = { Owns };

    ghost lock = { place_of };

    ghost seat_number = { number_of };

    ghost seen = { seen_of };

    ghost given = { λ s. given_to (number_of s) (seen_of s) };

    ghost spent = { λ s. returned_by (number_of s) (seen_of s) };

    ghost is_out = { IsOut };

    ghost is_plan = { IsPlan };

    ghost rests = { Rests };

    fn offer<R: Wait + Clock>(
        &self,
        rt: &R,
        seat: &mut Seat<Board>,
        _most: u64,
    ) -> Result<Offer<Ticket>, Memory> {
        let (turn, mut board) = self.lock.open(rt, seat);
        let offer = board.offer(seat.number());
        self.lock.close_turn(seat, turn, board);
        offer
    }

    fn number(&self, ticket: &Ticket) -> u64 {
        ticket.number
    }

    fn evaluate(&self, ticket: &Ticket) -> Result<u64, Memory> {
        Ok(ticket.number.wrapping_mul(ticket.number))
    }

    fn finish<R: Wait>(
        &self,
        rt: &R,
        seat: &mut Seat<Board>,
        ticket: Ticket,
        _plan: u64,
    ) -> Result<Received, (Ticket, Memory)> {
        self.give_back(rt, seat, ticket);
        Ok(Received::InTime)
    }

    fn give_back<R: Wait>(&self, rt: &R, seat: &mut Seat<Board>, ticket: Ticket) {
        let (turn, mut board) = self.lock.open(rt, seat);
        board.take_back(seat.number(), ticket);
        self.lock.close_turn(seat, turn, board);
    }
}

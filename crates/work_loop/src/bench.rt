// Benches, from which workers get tickets.

use def_memory::Memory;
use std::sync::Wait;
use std::time::Clock;

/// The answer of a bench to a worker that asks for work.
pub enum Offer<T> {
    /// A ticket, which the worker has to finish or give back.
    Ticket(T),
    /// The call did the work itself. `more` is a hint for the worker whether the next call may do more.
    Moved { more: bool },
    /// There is nothing to do now, but a ticket of another seat may bring new work.
    Idle,
    /// Nothing is left to do.
    Quiet,
}

/// How a bench received a plan: a hint for the worker whether it is worth going on at once.
pub enum Received {
    /// The plan was carried out.
    InTime,
    /// The plan was made from something that has changed since, so nothing was done.
    Stale,
}

/// Work that several seats share.
///
/// The meaning of a bench is given by members that exist only in contracts. A seat keeps its lock and its number. The list of
/// what it has seen only grows at its end. Each ticket that it was given is spent once, by `finish` or `give_back`.
pub trait Bench {
    ghost use Rattle.std.specs.Prelude.{◌≡◌, ◌+◌, ℕ, List, IfOk, IfErr};
    ghost use mathlib.Core.List.{IsPrefix};
    ghost use Rattle.work_loop.specs.Offers.{IfTicket, IfQuiet, tickets_in, tickets_spent};

    /// What one worker holds to work at the bench.
    type Seat;

    /// One piece of work. If the type is not `Drop`, no ticket can be dropped.
    type Ticket;

    /// The plan of a ticket's work. If `finish` fails the plan is dropped.
    type Plan;

    /// The type of the identity of a seat's lock.
    ghost Lock: { Type 0 };

    /// The type of the items that a seat has seen.
    ghost Mark: { Type 0 };

    /// The seat belongs to the bench.
    ghost owns: { Self → Self.Seat → Type 0 };

    /// The seat's lock.
    ghost lock: { Self.Seat → Lock };

    /// The seat's number.
    ghost seat_number: { Self.Seat → ℕ };

    /// The list of what the seat has seen.
    ghost seen: { Self.Seat → List Mark };

    /// The number of tickets that the seat was given.
    ghost given: { Self.Seat → ℕ };

    /// The number of tickets that the seat has finished or given back.
    ghost spent: { Self.Seat → ℕ };

    /// The ticket is out for the seat.
    ghost is_out: { Self → Self.Seat → Self.Ticket → Type 0 };

    /// The plan belongs to the ticket.
    ghost is_plan: { Self.Ticket → Self.Plan → Type 0 };

    /// The seat is at rest: nothing is left to do, as far as it has seen.
    ghost rests: { Self.Seat → Type 0 };

    /// Looks for work. The bench may do up to `most` small pieces itself, and spends the ticket of each at once. A ticket that it
    /// returns is out for the seat, and after `Quiet` the seat is at rest.
    fn offer<R: Wait + Clock>(
        &self,
        rt: &R,
        seat: &mut Self::Seat,
        most: u64,
    ) -> Result<Offer<Self::Ticket>, Memory>
        requires own { owns self.now seat.old }
        ensures own { owns self.now seat.new }
        ensures lock { lock seat.new ≡ lock seat.old }
        ensures number { seat_number seat.new ≡ seat_number seat.old }
        ensures seen { IsPrefix (seen seat.old) (seen seat.new) }
        ensures held { given seat.new + spent seat.old ≡
            given seat.old + spent seat.new + tickets_in result }
        ensures ticket { IfOk result (IfTicket (is_out self.now seat.new)) }
        ensures quiet { IfOk result (IfQuiet (rests seat.new)) };

    /// The ticket's number, for the gate.
    fn number(&self, ticket: &Self::Ticket) -> u64;

    /// Makes the ticket's plan, outside the bench's lock.
    fn evaluate(&self, ticket: &Self::Ticket) -> Result<Self::Plan, Memory>
        ensures plan { IfOk result (is_plan ticket.now) };

    /// Hands the plan in, which spends the ticket, and returns how it was received. On `Memory` the ticket comes back and is
    /// still out.
    fn finish<R: Wait>(
        &self,
        rt: &R,
        seat: &mut Self::Seat,
        ticket: Self::Ticket,
        plan: Self::Plan,
    ) -> Result<Received, (Self::Ticket, Memory)>
        requires own { owns self.now seat.old }
        requires out { is_out self.now seat.old ticket }
        requires plan { is_plan ticket plan }
        ensures own { owns self.now seat.new }
        ensures lock { lock seat.new ≡ lock seat.old }
        ensures number { seat_number seat.new ≡ seat_number seat.old }
        ensures seen { IsPrefix (seen seat.old) (seen seat.new) }
        ensures given { given seat.new ≡ given seat.old }
        ensures spent { spent seat.new ≡ spent seat.old + tickets_spent result }
        ensures out { IfErr result (λ e. is_out self.now seat.new e.0) };

    /// Gives the ticket back unfinished, which spends it.
    fn give_back<R: Wait>(&self, rt: &R, seat: &mut Self::Seat, ticket: Self::Ticket)
        requires own { owns self.now seat.old }
        requires out { is_out self.now seat.old ticket }
        ensures own { owns self.now seat.new }
        ensures lock { lock seat.new ≡ lock seat.old }
        ensures number { seat_number seat.new ≡ seat_number seat.old }
        ensures seen { IsPrefix (seen seat.old) (seen seat.new) }
        ensures given { given seat.new ≡ given seat.old }
        ensures spent { spent seat.new ≡ spent seat.old + 1 };
}

// The loop of a worker.
ghost use Rattle.std.specs.Prelude.{◌≡◌, ◌+◌, IfOk, IfErr, OnOk};
ghost use mathlib.Core.List.{IsPrefix};
ghost use Rattle.work_loop.specs.Offers.{IfQuiet, tickets_spent};

use crate::bench::{Bench, Offer, Received};
use crate::gates::Gate;
use crate::pace::Pace;
use crate::places::Places;
use crate::rest::Rest;
use crate::watch::Watch;
use def_memory::Memory;
use std::sync::Wait;
use std::time::Clock;

/// Works at the bench until nothing is left to do, and then returns Ok, with its seat at rest. Before it returns `Memory` it
/// gives back the ticket that it holds. In both cases each ticket that it was given is spent, and the seat still belongs to the
/// bench.
pub fn work<B: Bench, G: Gate, R: Wait + Clock>(
    rt: &R,
    bench: &B,
    seat: &mut B::Seat,
    gate: &G,
    places: &Places,
) -> Result<(), Memory>
    requires own { B.owns bench.now seat.old }
    ensures own { B.owns bench.now seat.new }
    ensures lock { B.lock seat.new ≡ B.lock seat.old }
    ensures number { B.seat_number seat.new ≡ B.seat_number seat.old }
    ensures seen { IsPrefix (B.seen seat.old) (B.seen seat.new) }
    ensures all_spent { B.spent seat.new + B.given seat.old ≡ B.given seat.new + B.spent seat.old }
    ensures rests { OnOk result (B.rests seat.new) }
{
    let mut pace = Pace::new();
    let mut rest = Rest::new();
    for _ in rt.forever() {
        if !places.take() {
            rest.stand_by(rt);
            continue;
        }
        let came = look(rt, bench, seat, gate, &mut pace);
        places.leave();
        match came? {
            Offer::Ticket(Received::InTime) => rest.end(),
            Offer::Ticket(Received::Stale) => rest.late(rt),
            Offer::Moved { more: _ } => rest.end(),
            Offer::Idle => rest.idle(rt),
            Offer::Quiet => return Ok(()),
        }
    }
    unreachable!()
}

// Looks for work once, does it, and returns the offer of the bench; in place of a ticket the offer has how its plan was received.
// Each ticket that it was given is spent, even on `Memory`.
fn look<B: Bench, G: Gate, R: Wait + Clock>(
    rt: &R,
    bench: &B,
    seat: &mut B::Seat,
    gate: &G,
    pace: &mut Pace,
) -> Result<Offer<Received>, Memory>
    requires own { B.owns bench.now seat.old }
    ensures own { B.owns bench.now seat.new }
    ensures lock { B.lock seat.new ≡ B.lock seat.old }
    ensures number { B.seat_number seat.new ≡ B.seat_number seat.old }
    ensures seen { IsPrefix (B.seen seat.old) (B.seen seat.new) }
    ensures all_spent { B.spent seat.new + B.given seat.old ≡ B.given seat.new + B.spent seat.old }
    ensures rests { IfOk result (IfQuiet (B.rests seat.new)) }
{
    match bench.offer(rt, seat, pace.most())? {
        Offer::Ticket(ticket) => {
            let received = serve(rt, bench, seat, gate, pace, ticket)?;
            Ok(Offer::Ticket(received))
        }
        Offer::Moved { more } => {
            pace.moved(more);
            Ok(Offer::Moved { more })
        }
        Offer::Idle => Ok(Offer::Idle),
        Offer::Quiet => Ok(Offer::Quiet),
    }
}

// Does one ticket's work, inside the gate, and returns how its plan was received. The ticket is spent, even on `Memory`.
fn serve<B: Bench, G: Gate, R: Wait + Clock>(
    rt: &R,
    bench: &B,
    seat: &mut B::Seat,
    gate: &G,
    pace: &mut Pace,
    ticket: B::Ticket,
) -> Result<Received, Memory>
    requires own { B.owns bench.now seat.old }
    requires out { B.is_out bench.now seat.old ticket }
    ensures own { B.owns bench.now seat.new }
    ensures lock { B.lock seat.new ≡ B.lock seat.old }
    ensures number { B.seat_number seat.new ≡ B.seat_number seat.old }
    ensures seen { IsPrefix (B.seen seat.old) (B.seen seat.new) }
    ensures given { B.given seat.new ≡ B.given seat.old }
    ensures spent { B.spent seat.new ≡ B.spent seat.old + 1 }
{
    let call = bench.number(&ticket);
    gate.enter(call);
    match complete(rt, bench, seat, pace, ticket) {
        Ok(received) => {
            gate.leave(call);
            Ok(received)
        }
        Err((ticket, memory)) => {
            bench.give_back(rt, seat, ticket);
            Err(memory)
        }
    }
}

// Makes the ticket's plan and hands it in. On `Memory` the ticket is still out.
fn complete<B: Bench, R: Wait + Clock>(
    rt: &R,
    bench: &B,
    seat: &mut B::Seat,
    pace: &mut Pace,
    ticket: B::Ticket,
) -> Result<Received, (B::Ticket, Memory)>
    requires own { B.owns bench.now seat.old }
    requires out { B.is_out bench.now seat.old ticket }
    ensures own { B.owns bench.now seat.new }
    ensures lock { B.lock seat.new ≡ B.lock seat.old }
    ensures number { B.seat_number seat.new ≡ B.seat_number seat.old }
    ensures seen { IsPrefix (B.seen seat.old) (B.seen seat.new) }
    ensures given { B.given seat.new ≡ B.given seat.old }
    ensures spent { B.spent seat.new ≡ B.spent seat.old + tickets_spent result }
    ensures out { IfErr result (λ e. B.is_out bench.now seat.new e.0) }
{
    let watch = Watch::start(rt);
    match bench.evaluate(&ticket) {
        Ok(plan) => {
            pace.planned(watch.shows_small(rt));
            bench.finish(rt, seat, ticket, plan)
        }
        Err(memory) => Err((ticket, memory)),
    }
}

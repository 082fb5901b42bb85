//! A worker for each seat of a bench, until all are done.
ghost use Rattle.std.specs.Prelude.{◌≡◌, ◌≤◌, true, [], map, length, All, OnOk, vec_len, vec_capacity};
ghost use Rattle.work_loop.specs.declared.workers.Worker.{Worker};
ghost use Rattle.work_loop.specs.Crews.{seats_of, Leaves, EachLeaves, all_ok};

use crate::workers::Worker;
use crate::{Bench, Gate, Places, work};
use def_memory::Memory;
use std::alloc::Global;
use std::sync::Wait;
use std::thread;
use std::thread::Threads;
use std::time::Clock;

/// Runs a worker for each seat, each in a thread of its own, until nothing is left to do. The seats come back in order. As many
/// workers are active at the same time as there are processors, but at least two. If a thread cannot be made, the calling thread
/// works in its place. On Ok each seat is at rest; `Memory` means that a worker, or the crew itself, had no memory.
pub fn work_all<
    R: Threads + Wait + Clock + Sync,
    G: Gate + Sync,
    S: Send + Drop,
    B: Bench<Seat = S> + Sync,
>(rt: &R, alloc: Global, bench: &B, gate: &G, seats: Vec<S>) -> (Vec<S>, Result<(), Memory>)
    requires own { All (B.owns bench.now) seats.items }
    ensures own { All (B.owns bench.now) result.0.items }
    ensures lock { map B.lock result.0.items ≡ map B.lock seats.items }
    ensures number { map B.seat_number result.0.items ≡ map B.seat_number seats.items }
    ensures rests { OnOk result.1 (All B.rests result.0.items) }
{
    let Ok(mut workers) = Vec::with_capacity(alloc, seats.len()) else {
        return (seats, Err(Memory));
    };
    let Ok(mut back) = Vec::with_capacity(alloc, seats.len()) else {
        return (seats, Err(Memory));
    };
    hire(seats, &mut workers);
    let places = Places::new(rt);
    attend(rt, bench, gate, &places, workers.as_mut_slice());
    let result = dismiss(workers, &mut back);
    (back, result)
}

// Makes a worker for each seat.
fn hire<S: Drop>(seats: Vec<S>, workers: &mut Vec<Worker<S>>)
    requires empty { workers.old.items ≡ [] }
    requires room { vec_len seats ≤ vec_capacity workers.old }
    ensures { seats_of workers.new.items ≡ seats.items }
{
    for seat in seats {
        workers.push_reserved(Worker {
            seat,
            result: Ok(()),
        });
    }
}

// Runs each worker in a thread of its own.
fn attend<R: Threads + Wait + Clock + Sync, G: Gate + Sync, S: Send, B: Bench<Seat = S> + Sync>(
    rt: &R,
    bench: &B,
    gate: &G,
    places: &Places,
    workers: &mut [Worker<S>],
)
    requires own { All (λ w. B.owns bench.now w.seat) workers.old }
    ensures left { EachLeaves (B.owns bench.now) B.lock B.seat_number B.rests
        workers.old workers.new }
{
    let threads = workers.len().max(1);
    thread::for_each_mut(
        rt,
        workers,
        threads,
        &|_, worker: &mut Worker<S>|
            requires { B.owns bench.now worker.now.seat }
            ensures { Leaves (B.owns bench.entry.now) B.lock B.seat_number B.rests
                worker.entry.now worker.exit.now }
        { worker.result = work(rt, bench, &mut worker.seat, gate, places) },
    );
}

// Takes the seats of the workers. The result is Ok only if each worker returned Ok.
fn dismiss<S: Drop>(workers: Vec<Worker<S>>, seats: &mut Vec<S>) -> Result<(), Memory>
    requires empty { seats.old.items ≡ [] }
    requires room { vec_len workers ≤ vec_capacity seats.old }
    ensures seats { seats.new.items ≡ seats_of workers.items }
    ensures all { OnOk result (all_ok workers.items ≡ true) }
{
    let mut all = true;
    for worker in workers {
        let Worker { seat, result } = worker;
        all = all && result.is_ok();
        seats.push_reserved(seat);
    }
    if all { Ok(()) } else { Err(Memory) }
}

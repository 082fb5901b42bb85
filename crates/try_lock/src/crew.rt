// A crew: a worker for each seat, each in a thread of its own.
ghost use Rattle.std.specs.Prelude.{◌≡◌, ◌<◌, ◌≤◌, [], length, All, vec_len, vec_capacity};
ghost use Rattle.try_lock.specs.Own.{Owns};
ghost use Rattle.try_lock.specs.Workers.{seats_of, HasAttended, HaveAttended};

use crate::board::Board;
use crate::desk::Desk;
use crate::duty::Duty;
use crate::worker::Worker;
use std::alloc::Global;
use std::sync::Wait;
use std::thread;
use std::thread::Threads;
use std::time::Clock;
use work_lock::{Seat, new};

// Lets each worker do its duty in a thread of its own.
fn attend_all<R: Threads + Wait + Clock + Sync, D: Duty + Sync>(
    rt: &R,
    desk: &Desk,
    duty: &D,
    workers: &mut [Worker],
)
    requires some { 0 < length workers.old }
    requires own { All (λ w. Owns desk.now w.seat) workers.old }
    ensures attended { HaveAttended desk.now workers.old workers.new }
{
    let threads = workers.len();
    thread::for_each_mut(
        rt,
        workers,
        threads,
        &|_, worker: &mut Worker|
            requires { Owns desk.now worker.now.seat }
            ensures { HasAttended desk.entry.now worker.entry.now worker.exit.now }
        { duty.attend(rt, desk, worker) },
    );
}

// A worker for each seat.
fn hire(seats: Vec<Seat<Board>>, workers: &mut Vec<Worker>)
    requires empty { workers.old.items ≡ [] }
    requires room { vec_len seats ≤ vec_capacity workers.old }
    ensures { seats_of workers.new.items ≡ seats.items }
{
    for seat in seats {
        workers.push_reserved(Worker {
            seat,
            result: Ok(()),
        });
    }
}

// The seats of the workers, and whether each worker answered Ok.
fn dismiss(workers: Vec<Worker>, seats: &mut Vec<Seat<Board>>) -> bool
    requires empty { seats.old.items ≡ [] }
    requires room { vec_len workers ≤ vec_capacity seats.old }
    ensures { seats.new.items ≡ seats_of workers.items }
{
    let mut all = true;
    for worker in workers {
        let Worker { seat, result } = worker;
        all = all && result.is_ok();
        seats.push_reserved(seat);
    }
    all
}

/// Lets `seats` workers do their duty at a new board, and gives the board. The result is None only if memory runs out.
pub fn run<R: Threads + Wait + Clock + Sync, D: Duty + Sync>(
    rt: &R,
    alloc: Global,
    tickets: u64,
    seats: u64,
    duty: &D,
) -> Option<Board>
    requires { (1 ≤ seats) × (seats ≤ 16) }
{
    let mut workers = Vec::with_capacity(alloc, seats as usize).ok()?;
    let mut back = Vec::with_capacity(alloc, seats as usize).ok()?;
    let Ok((lock, dealt)) = new(alloc, Board::new(alloc, tickets), seats) else {
        return None;
    };
    hire(dealt, &mut workers);
    let desk = Desk { lock };
    attend_all(rt, &desk, duty, workers.as_mut_slice());
    let all_ok = dismiss(workers, &mut back);
    let Desk { lock } = desk;
    let board = lock.into_value(back);
    if all_ok { Some(board) } else { None }
}

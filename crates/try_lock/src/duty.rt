// What a worker does at its desk.
use crate::desk::Desk;
use crate::worker::Worker;
use std::sync::Wait;
use std::time::Clock;
use work_loop::{Gate, Places, work};

/// A worker's duty. Whatever it is, the seat stays one of the desk's, keeps its place, and has seen at least as much as before.
pub trait Duty {
    ghost use Rattle.try_lock.specs.Own.{Owns};
    ghost use Rattle.try_lock.specs.Workers.{HasAttended};

    fn attend<R: Wait + Clock>(&self, rt: &R, desk: &Desk, worker: &mut Worker)
        requires own { Owns desk.now worker.old.seat }
        ensures attended { HasAttended desk.now worker.old worker.new };
}

/// The duty to work, with a gate, until nothing is left to do.
#[derive(Drop)]
pub struct Work<G: Gate> {
    pub gate: G,
    pub places: Places,
}

impl<G: Gate> Duty for Work<G> {
    fn attend<R: Wait + Clock>(&self, rt: &R, desk: &Desk, worker: &mut Worker) {
        worker.result = work(rt, desk, &mut worker.seat, &self.gate, &self.places);
    }
}

/// The duty to open and close `count` empty turns, to measure the lock.
#[derive(Drop)]
pub struct Turns {
    pub count: u64,
}

impl Duty for Turns {
    fn attend<R: Wait + Clock>(&self, rt: &R, desk: &Desk, worker: &mut Worker) {
        for _ in 0..self.count {
            let (turn, board) = desk.lock.open(rt, &mut worker.seat);
            desk.lock.close_turn(&mut worker.seat, turn, board);
        }
    }
}

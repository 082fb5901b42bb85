//! A core run by workers.
ghost use Rattle.std.specs.Prelude.{◌≡◌, ◌≤◌, IfOk, IfErr};
ghost use Rattle.work_desk.specs.Closing.{IsWhole, Ends};

use def_memory::Memory;
use std::alloc::Global;
use std::sync::Wait;
use std::thread::Threads;
use std::time::Clock;
use work_desk::{Core, Desk};
use work_loop::{Gate, work_all};

/// Runs the core by `seats` workers, from 1 to 16, each in a thread of its own, until nothing is left to do, and gives the core.
/// If a thread cannot be made, the calling thread works in its place. If all updates of the session were admitted before, the
/// core's history then has the serial machine's result, whatever the schedule. If memory runs out, the core comes back as the
/// workers left it.
pub fn run<R: Threads + Wait + Clock + Sync, G: Gate + Sync, C: Core + Send>(
    rt: &R,
    gate: &G,
    alloc: Global,
    core: C,
    seats: u64,
) -> Result<C, (C, Memory)>
    requires seats { (1 ≤ seats) × (seats ≤ 16) }
    ensures over { IfOk result (λ c. C.over c ≡ C.over core) }
    ensures kept { IfErr result (λ e. C.over e.0 ≡ C.over core) }
    ensures ends { IfOk result (λ c. IsWhole (C.over core) (C.history core) →
        Ends (C.over core) (C.history core) (C.history c)) }
{
    let (desk, seats) = match Desk::new(alloc, core, seats) {
        Ok(opened) => opened,
        Err(refused) => return Err(refused),
    };
    let (seats, result) = work_all(rt, alloc, &desk, gate, seats);
    let core = desk.close(seats);
    match result {
        Ok(()) => Ok(core),
        Err(memory) => Err((core, memory)),
    }
}

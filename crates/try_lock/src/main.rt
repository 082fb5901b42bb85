//! Workers at one board: real threads take numbered tickets from a board inside a lock, until every ticket has come back.
//!
//! The board is the smallest bench that shows `work_lock` and `work_loop` at work. With no words the program runs two seats,
//! eight, and one, and always prints the same text. With two seats or more the gate sees tickets 1 and 2 in work at once, with
//! one it cannot. With the words SEATS and TURNS each of SEATS seats only takes TURNS turns, to be timed from outside.
#![tactic(auto)]

ghost use Rattle.std.specs.Prelude.{◌≤◌};

mod board;
mod crew;
mod desk;
mod duty;
mod meeting;
mod worker;

use crate::crew::run;
use crate::duty::{Turns, Work};
use crate::meeting::MeetGate;
use std::alloc::Global;
use std::io;
use std::sync::Wait;
use std::thread::Threads;
use std::time::Clock;
use work_loop::Places;

// Lets workers finish all tickets, and prints the result.
fn show<R: Threads + Wait + Clock + Print + Sync>(
    rt: &R,
    alloc: Global,
    tickets: u64,
    seats: u64,
) -> io::Result<()>
    requires { (1 ≤ seats) × (seats ≤ 16) }
{
    let duty = Work {
        gate: MeetGate::new(),
        places: Places::new(rt),
    };
    let Some(board) = run(rt, alloc, tickets, seats, &duty) else {
        return println!(rt; "no memory");
    };
    let given = board.given;
    let length = board.items.len();
    let met = duty.gate.met();
    println!(rt; "seats {seats} given {given} history {length} met {met}")
}

// Takes the turns that the words ask for.
fn time<R: Threads + Wait + Clock + Print + Sync>(
    rt: &R,
    alloc: Global,
    seats: u64,
    count: u64,
) -> io::Result<()> {
    if seats < 1 || 16 < seats {
        return println!(rt; "SEATS is from 1 to 16");
    }
    match run(rt, alloc, 0, seats, &Turns { count }) {
        Some(_) => println!(rt; "seats {seats} turns of each {count}"),
        None => println!(rt; "no memory"),
    }
}

fn main(rt: HostRuntime) -> io::Result<()> {
    let alloc = rt.alloc();
    let mut words = std::env::args(&rt)?.skip(1);
    let numbers = words.next().zip(words.next());
    let Some((seats, count)) = numbers else {
        show(&rt, alloc, 20, 2)?;
        show(&rt, alloc, 400, 8)?;
        return show(&rt, alloc, 3, 1);
    };
    match (seats.parse(), count.parse()) {
        (Ok(seats), Ok(count)) => time(&rt, alloc, seats, count),
        _ => println!(&rt; "usage: try_lock [SEATS TURNS]"),
    }
}

//! Schedules of a desk, on one thread: what the desk answers to seats that come in a given order, and its ends in every order.
//!
//! The input has cases, one after the other, in the form of `try_core`: a line `case STEPS RETRIES DEPS`, a session up to its
//! line `end`, lines with calls, and the line `done`. The desk of a case has three seats, `s1`, `s2` and `s3`. Its calls are
//! `next s1`, `evaluate s1`, `finish s1` and `back s1`. Each answer is printed, and at the end the trace of the core that the
//! desk gives back.
//!
//! Or the only call is `explore SEATS CALLS MOST`: the first SEATS seats come in every order for CALLS calls, and then in a fixed
//! order until nothing is left to do. The output has the number of schedules, at most MOST, the number of their ends, and the
//! ends: each is a result and a trace.
#![tactic(auto)]

mod explored;
mod hands;
mod leads;
mod paths;
mod played;
mod plays;
mod scripts;
mod tables;

use crate::played::told;
use base_devices::{Sink, StdSink};
use std::alloc::Global;
use std::sync::Wait;
use try_cases::{Case, CaseRefusal, tell};

// Prints the output of the case, and begins the next one.
fn finish<R: Wait, O: Sink>(
    rt: &R,
    alloc: Global,
    out: &mut O,
    case: &mut Case,
) -> Result<(), CaseRefusal> {
    let text = told(rt, alloc, case)?;
    *case = Case::new(alloc);
    tell(out, text.as_slice())
}

// Takes a line of the input.
fn take<R: Wait, O: Sink>(
    rt: &R,
    alloc: Global,
    out: &mut O,
    case: &mut Case,
    line: String,
) -> Result<(), CaseRefusal> {
    if line.as_str() == "done" {
        return finish(rt, alloc, out, case);
    }
    case.take(line)
}

fn main(rt: HostRuntime) -> anyhow::Result<()> {
    let alloc = rt.alloc();
    let mut out = StdSink::new(rt.stdout());
    let mut case = Case::new(alloc);
    for line in rt.lines(alloc) {
        take(&rt, alloc, &mut out, &mut case, line?)?;
    }
    Ok(())
}

//! Makes lists of calls on a core, and prints their answers.
//!
//! The input has cases, one after the other. A case is a line `case STEPS RETRIES DEPS`, a session up to its line `end`, calls,
//! one a line, and the line `done`. The update of number 3 is named `u3`. The calls that may make an event are `step u3`,
//! `deliver u3`, `answer u3 CHOICE`, `withdraw u3`, `update LABEL CURATOR OPERATION`, which admits one more update, and `drain`;
//! the calls that ask are `standing u3`, `question u3`, `counts`, `result` and `repository`. Choices and operations are spelled
//! as in a session.
//!
//! An event is printed as its line of the trace, a drain as the lines of its events, and a refusal as the word `refused` and its
//! cause. A question, and the result of a core without later updates, are printed as the program `youtopia` prints them. Of the
//! repository each tuple is a line.
#![tactic(auto)]

mod answers;
mod calls;
mod events;
mod making;
mod statements;

use crate::making::told;
use base_devices::{Sink, StdSink};
use std::alloc::Global;
use try_cases::{Case, CaseRefusal, tell};

// Prints what the calls of the case answer, and begins the next case.
fn finish<O: Sink>(alloc: Global, out: &mut O, case: &mut Case) -> Result<(), CaseRefusal> {
    let text = told(alloc, case)?;
    *case = Case::new(alloc);
    tell(out, text.as_slice())
}

// Takes a line of the input.
fn take<O: Sink>(
    alloc: Global,
    out: &mut O,
    case: &mut Case,
    line: String,
) -> Result<(), CaseRefusal> {
    if line.as_str() == "done" {
        return finish(alloc, out, case);
    }
    case.take(line)
}

fn main(rt: HostRuntime) -> anyhow::Result<()> {
    let alloc = rt.alloc();
    let mut out = StdSink::new(rt.stdout());
    let mut case = Case::new(alloc);
    for line in rt.lines(alloc) {
        take(alloc, &mut out, &mut case, line?)?;
    }
    Ok(())
}

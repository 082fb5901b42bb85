//! The program: one command between standard input, standard output and the standard error stream.
#![tactic(auto)]

mod auditing;
mod explaining;
mod plain;
mod telling;
mod top;
mod workers;

use crate::top::youtopia;
use base_devices::{StdSink, StdSource};
use cmd_frame::{Failure, Status, fail};
use std::env;
use std::io::{self, ErrorKind};
use std::process::ExitCode;
use work_loop::OpenGate;

// The words after the program's name. If one of them is not UTF-8, there are none, and a call without words is refused.
fn words(rt: &HostRuntime) -> io::Result<Vec<String>> {
    let mut words = Vec::new(rt.alloc());
    match env::args(rt) {
        Ok(all) => {
            for word in all.skip(1) {
                words.push(word)?;
            }
        }
        Err(error) => {
            if error.kind() == ErrorKind::OutOfMemory {
                return Err(error);
            }
        }
    }
    Ok(words)
}

fn main(rt: HostRuntime) -> ExitCode {
    let mut source = StdSource::new(rt.stdin());
    let mut out = StdSink::new(rt.stdout());
    let mut err = StdSink::new(rt.stderr());
    let status = match words(&rt) {
        Ok(words) => youtopia(
            &rt,
            rt.alloc(),
            &words,
            &mut source,
            &mut out,
            &mut err,
            &OpenGate,
        ),
        Err(_) => fail(Failure::OutOfMemory, &mut err),
    };
    ExitCode::from(status.number())
}

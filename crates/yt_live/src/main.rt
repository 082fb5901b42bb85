//! The program: curators work on one session by a stream of lines, between standard input, standard output and the error stream.
#![tactic(auto)]

mod curating;
mod ends;
mod openings;
mod serving;
mod telling;

use crate::curating::curate;
use crate::ends::LiveEnd;
use crate::telling::tell;
use base_devices::{StdSink, StdSource};
use std::env;
use std::io::{self, ErrorKind};
use std::process::ExitCode;

// The words after the program's name. If one of them is not UTF-8, they become one empty word, which is refused like any word.
fn words(rt: &HostRuntime) -> io::Result<Vec<String>> {
    let mut words = Vec::new(rt.alloc());
    match env::args(rt) {
        Ok(all) => {
            for word in all.skip(1) {
                words.push(word)?;
            }
        }
        Err(error) => {
            if error.kind() == ErrorKind::OutOfMemory {
                return Err(error);
            }
            words.push(String::new(rt.alloc()))?;
        }
    }
    Ok(words)
}

fn main(rt: HostRuntime) -> ExitCode {
    let mut source = StdSource::new(rt.stdin());
    let mut out = StdSink::new(rt.stdout());
    let mut err = StdSink::new(rt.stderr());
    let status = match words(&rt) {
        Ok(words) => curate(rt.alloc(), &words, &mut source, &mut out, &mut err),
        Err(_) => tell(rt.alloc(), &LiveEnd::Memory, &mut err),
    };
    ExitCode::from(status.number())
}

//! Appends to a log in a file, reads it and folds it. Tests kill this program at any moment.
#![tactic(auto)]

use base_devices::{Lines, NextLine, StdSource};
use std::env;
use std::io::{self, Write};
use std::process::ExitCode;
use std::time::Duration;
use ws_log::{
    Access, Damage, Fault, Opened, Reopened, RestingLog, create, fold, open, reason, reopen,
};

// Why the program stopped.
#[derive(Debug, Drop)]
enum Stop {
    Io(io::Error),
    Log(Fault),
    Memory,
    Usage,
}

impl From<io::Error> for Stop {
    fn from(error: io::Error) -> Stop {
        Stop::Io(error)
    }
}

impl From<Fault> for Stop {
    fn from(fault: Fault) -> Stop {
        Stop::Log(fault)
    }
}

impl From<std::alloc::AllocError> for Stop {
    fn from(_error: std::alloc::AllocError) -> Stop {
        Stop::Memory
    }
}

const WAIT: u64 = 60;

fn opened(rt: &HostRuntime, path: &str, access: Access) -> Result<Opened, Stop> {
    Ok(open(rt, path, access, Duration::from_secs(WAIT))?)
}

fn make(rt: &HostRuntime, path: &str) -> Result<(), Stop> {
    create(rt, path, b"head", &[])?;
    Ok(())
}

fn append(rt: &HostRuntime, path: &str, text: &str) -> Result<(), Stop> {
    let found = opened(rt, path, Access::Change)?;
    let log = found.log.append(rt.alloc(), text.as_bytes())?;
    println!(rt; "{}", log.count())?;
    Ok(())
}

// Appends numbered texts, and prints the log's count after each acknowledged one.
fn go_on(rt: &HostRuntime, path: &str, count: u64) -> Result<(), Stop> {
    let mut log = opened(rt, path, Access::Change)?.log;
    println!(rt; "{}", log.count())?;
    for _turn in 0..count {
        let number = log.count();
        let width = (number % 977) as usize;
        let text = format!(in rt.alloc(); "{number} {:>width$}", number)?;
        log = log.append(rt.alloc(), text.as_bytes())?;
        println!(rt; "{}", log.count())?;
    }
    Ok(())
}

fn show(rt: &HostRuntime, path: &str) -> Result<(), Stop> {
    let found = opened(rt, path, Access::Read)?;
    println!(rt; "{}", found.log.count())?;
    tell_texts(rt, &found.texts)
}

fn folded(rt: &HostRuntime, path: &str, head: &str) -> Result<(), Stop> {
    let found = opened(rt, path, Access::Change)?;
    fold(rt, path, found.log, head.as_bytes())?;
    Ok(())
}

// Stays, and reads on at each line of the input: an empty line only reads, another line is appended.
fn stay(rt: &HostRuntime, path: &str) -> Result<(), Stop> {
    let mut resting = opened(rt, path, Access::Read)?.log.release()?;
    let mut source = StdSource::new(rt.stdin());
    let mut lines = Lines::new(rt.alloc(), 1_000_000);
    for _line in 0..u64::MAX {
        match lines.next(rt.alloc(), &mut source) {
            Ok(NextLine::Whole(text)) => resting = turn(rt, path, resting, &text)?,
            _ => return Ok(()),
        }
    }
    Ok(())
}

// One line of the input while the program stays: prints what is new, and appends the text.
fn turn(
    rt: &HostRuntime,
    path: &str,
    resting: RestingLog,
    text: &[u8],
) -> Result<RestingLog, Stop> {
    let access = if text.is_empty() {
        Access::Read
    } else {
        Access::Change
    };
    let (found, whose) = match reopen(rt, resting, path, access, Duration::from_secs(WAIT))? {
        Reopened::Same(found) => (found, "same"),
        Reopened::Another(found) => (found, "another"),
    };
    println!(rt; "{whose} {}", found.texts.len())?;
    tell_texts(rt, &found.texts)?;
    if text.is_empty() {
        return Ok(found.log.release()?);
    }
    Ok(found.log.append(rt.alloc(), text)?.release()?)
}

fn tell_texts(rt: &HostRuntime, texts: &[Vec<u8>]) -> Result<(), Stop> {
    let mut out = rt.stdout();
    for text in texts {
        out.write_all(text)?;
        out.write_all(b"\n")?;
    }
    out.flush()?;
    Ok(())
}

fn run(rt: &HostRuntime) -> Result<(), Stop> {
    let mut words = Vec::new(rt.alloc());
    for word in env::args(rt)?.skip(1) {
        words.push(word).map_err(|_| Stop::Memory)?;
    }
    match words.as_slice() {
        [verb, path] if verb.as_str() == "make" => make(rt, path.as_str()),
        [verb, path] if verb.as_str() == "show" => show(rt, path.as_str()),
        [verb, path] if verb.as_str() == "stay" => stay(rt, path.as_str()),
        [verb, path] if verb.as_str() == "on" => go_on(rt, path.as_str(), 1_000_000),
        [verb, path, text] if verb.as_str() == "append" => append(rt, path.as_str(), text.as_str()),
        [verb, path, head] if verb.as_str() == "fold" => folded(rt, path.as_str(), head.as_str()),
        _ => Err(Stop::Usage),
    }
}

// Prints why the program stopped, in the words of a workspace.
fn tell(rt: &HostRuntime, stop: Stop) -> Result<(), Stop> {
    match stop {
        Stop::Log(Fault::Damaged(Damage::At(place))) => eprintln!(rt; "damaged at {place}")?,
        Stop::Log(Fault::Damaged(Damage::NotAsWritten(number))) => {
            eprintln!(rt; "record {number} is not as it was written")?
        }
        Stop::Log(Fault::Unwritable(error)) => {
            let why = reason(rt.alloc(), &error).map_err(|_| Stop::Memory)?;
            eprintln!(rt; "cannot write: {why}")?
        }
        Stop::Log(Fault::Unreadable(error)) => {
            let why = reason(rt.alloc(), &error).map_err(|_| Stop::Memory)?;
            eprintln!(rt; "cannot read: {why}")?
        }
        other => eprintln!(rt; "{other:?}")?,
    }
    Ok(())
}

fn main(rt: HostRuntime) -> ExitCode {
    match run(&rt) {
        Ok(()) => ExitCode::from(0),
        Err(stop) => {
            let _told = tell(&rt, stop);
            ExitCode::from(1)
        }
    }
}

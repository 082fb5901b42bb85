//! The words of the process and its environment: what is asked for, who speaks, and when.

use def_memory::Memory;
use std::alloc::{AllocError, Global};
use std::env::{self, Env, FillError, VarError};
use std::time::{SystemTime, UNIX_EPOCH};
use ws_grammar::is_time;
use ws_words::{Words, curator_of, time_of};

/// The words after the program's name.
#[derive(Drop)]
pub(crate) struct Given {
    pub words: Vec<String>,
    /// The number of the first word that is not UTF-8, from 1. In `words` its wrong bytes are replaced.
    pub unread: Option<usize>,
}

/// The words after the program's name.
pub(crate) fn words_of(rt: &HostRuntime) -> Result<Given, Memory> {
    let mut given = Given {
        words: Vec::new(rt.alloc()),
        unread: None,
    };
    for number in 1..usize::MAX {
        match word_bytes(rt, number)? {
            Some(bytes) => given.add(rt.alloc(), number, bytes.as_slice())?,
            None => break,
        }
    }
    Ok(given)
}

// The bytes of a word, by its number; None after the last.
fn word_bytes(rt: &HostRuntime, number: usize) -> Result<Option<Vec<u8>>, AllocError> {
    let mut room = Vec::new(rt.alloc());
    let mut most = 256usize;
    for _ in 0..usize::BITS {
        room.resize(most, 0)?;
        match rt.arg(number, room.as_mut_slice()) {
            Ok(size) => {
                room.truncate(size);
                return Ok(Some(room));
            }
            Err(FillError::NotPresent) => return Ok(None),
            Err(FillError::TooLong) => most = most.saturating_add(most),
        }
    }
    Err(AllocError)
}

impl Given {
    fn add(&mut self, alloc: Global, number: usize, bytes: &[u8]) -> Result<(), AllocError> {
        if str::from_utf8(bytes).is_err() && self.unread.is_none() {
            self.unread = Some(number);
        }
        self.words.push(String::from_utf8_lossy(alloc, bytes)?)?;
        Ok(())
    }
}

// A variable of the environment; empty if it is not set or not UTF-8.
fn variable(rt: &HostRuntime, name: &str) -> Result<String, Memory> {
    match env::var(rt, name) {
        Ok(value) => Ok(value),
        Err(VarError::OutOfMemory) => Err(Memory),
        Err(_) => Ok(String::new(rt.alloc())),
    }
}

/// Who speaks: the name in `--as`, else in `YT_CURATOR`, else in `USER`.
pub(crate) fn curator(rt: &HostRuntime, words: &Words) -> Result<String, Memory> {
    let alloc = rt.alloc();
    if let Some(name) = &words.curator {
        return Ok(curator_of(alloc, name.as_str())?);
    }
    let named = variable(rt, "YT_CURATOR")?;
    if !named.is_empty() {
        return Ok(curator_of(alloc, named.as_str())?);
    }
    let user = variable(rt, "USER")?;
    Ok(curator_of(alloc, user.as_str())?)
}

/// The time of commands: fixed by `YT_TIME`, or that of the clock.
#[derive(Drop)]
pub(crate) enum Time {
    Fixed(String),
    Clock,
    /// `YT_TIME` is set, and is no time.
    Wrong,
}

/// The time that `YT_TIME` gives.
pub(crate) fn said_time(rt: &HostRuntime) -> Result<Time, Memory> {
    match env::var(rt, "YT_TIME") {
        Ok(set) => Ok(time_in(set)),
        Err(VarError::NotPresent) => Ok(Time::Clock),
        Err(VarError::NotUnicode) => Ok(Time::Wrong),
        Err(VarError::OutOfMemory) => Err(Memory),
    }
}

// The time that the variable's text gives; an empty text means the clock.
fn time_in(set: String) -> Time {
    if set.is_empty() {
        return Time::Clock;
    }
    if is_time(set.as_str()) {
        return Time::Fixed(set);
    }
    Time::Wrong
}

impl Time {
    /// The time now.
    pub(crate) fn now(&self, rt: &HostRuntime) -> Result<String, AllocError> {
        match self {
            Time::Fixed(text) => String::from_str(rt.alloc(), text.as_str()),
            _ => by_clock(rt, rt.alloc()),
        }
    }
}

// The time of the clock; the beginning of 1970 if the clock fails.
fn by_clock(rt: &HostRuntime, alloc: Global) -> Result<String, AllocError> {
    let now = SystemTime::now(rt).unwrap_or(UNIX_EPOCH);
    let seconds = match now.duration_since(UNIX_EPOCH) {
        Ok(since) => since.as_secs(),
        Err(_) => 0,
    };
    time_of(alloc, i64::try_from(seconds).unwrap_or(0))
}

//! A case, gathered line by line.
ghost use Rattle.std.specs.Prelude.{◌≤◌, IfOk};
ghost use Rattle.def_language.specs.Validity.{IsSession};
ghost use Rattle.lang_session.specs.Meanings.{session_of};

use crate::refusals::CaseRefusal;
use base_limits::{Budget, MOST_BYTES, MOST_RETRIES, MOST_STEPS};
use core_queue::{Deps, Settings};
use lang_reader::read_session;
use lang_session::Session;
use std::alloc::Global;

/// A case: a line `case STEPS RETRIES DEPS`, a session up to its line `end`, and lines with calls. After any `Err` of `take` it
/// is of no use any more.
#[derive(Drop)]
pub struct Case {
    head: Option<String>,
    session: Vec<u8>,
    is_whole: bool,
    calls: Vec<String>,
}

impl Case {
    /// A case before its first line.
    pub fn new(alloc: Global) -> Case {
        Case {
            head: None,
            session: Vec::new(alloc),
            is_whole: false,
            calls: Vec::new(alloc),
        }
    }

    /// Takes the next line.
    pub fn take(&mut self, line: String) -> Result<(), CaseRefusal> {
        if self.head.is_none() {
            self.head = Some(line);
        } else if self.is_whole {
            self.calls.push(line)?;
        } else {
            self.session.extend_from_slice(line.as_str().as_bytes())?;
            self.session.push(b'\n')?;
            self.is_whole = line.as_str() == "end";
        }
        Ok(())
    }

    /// The lines of the calls.
    pub fn calls(&self) -> &[String] {
        self.calls.as_slice()
    }

    /// The session of the case. An error if its text spells none.
    pub fn session(&self, alloc: Global) -> Result<Session, CaseRefusal>
        ensures valid { IfOk result (λ session. IsSession (session_of session)) }
    {
        if MOST_BYTES < self.session.len() {
            return Err(CaseRefusal::Spelling);
        }
        let session = read_session(alloc, self.session.as_slice())?;
        Ok(session)
    }

    /// The budget of an attempt, and the settings of the core. An error if the first line does not spell them.
    pub fn settings(&self) -> Result<(Budget, Settings), CaseRefusal>
        ensures retries { IfOk result (λ found. found.1.retries ≤ 4) }
    {
        match &self.head {
            Some(head) => read_settings(head.as_str()),
            None => Err(CaseRefusal::Spelling),
        }
    }
}

// The settings of the line `case STEPS RETRIES DEPS`.
fn read_settings(line: &str) -> Result<(Budget, Settings), CaseRefusal>
    ensures retries { IfOk result (λ found. found.1.retries ≤ 4) }
{
    let mut words = line.split_whitespace();
    let (Some("case"), Some(steps), Some(retries), Some(deps)) = (
        words.next(),
        words.next(),
        words.next(),
        words.next(),
    ) else {
        return Err(CaseRefusal::Spelling);
    };
    let budget = read_budget(steps)?;
    let settings = Settings {
        retries: read_retries(retries)?,
        deps: read_deps(deps)?,
    };
    Ok((budget, settings))
}

// The budget with the number of steps in the word, from 1 to 300.
fn read_budget(word: &str) -> Result<Budget, CaseRefusal> {
    let steps = word.parse::<u32>()?;
    if steps < 1 || MOST_STEPS < steps {
        return Err(CaseRefusal::Spelling);
    }
    Ok(Budget::new(steps))
}

// The number of retries, from 0 to 4.
fn read_retries(word: &str) -> Result<u32, CaseRefusal>
    ensures few { IfOk result (λ retries. retries ≤ 4) }
{
    let retries = word.parse::<u32>()?;
    if MOST_RETRIES < retries {
        return Err(CaseRefusal::Spelling);
    }
    Ok(retries)
}

// How dependence is tested.
fn read_deps(word: &str) -> Result<Deps, CaseRefusal> {
    match word {
        "precise" => Ok(Deps::Precise),
        "coarse" => Ok(Deps::Coarse),
        _ => Err(CaseRefusal::Spelling),
    }
}

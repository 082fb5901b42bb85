//! The ends of a desk in every order of its seats.
ghost use Rattle.std.specs.Prelude.{◌≤◌};
ghost use Rattle.def_language.specs.Validity.{IsSession};
ghost use Rattle.lang_session.specs.Meanings.{session_of};

use crate::paths::Path;
use crate::played::end_of;
use base_limits::Budget;
use core_queue::Settings;
use lang_session::Session;
use std::alloc::Global;
use std::collections::BTreeSet;
use std::sync::Wait;
use try_cases::{CaseRefusal, with_line};

/// The number of seats that come in every order, the number of calls for which they do, and the greatest number of schedules.
#[derive(Clone, Copy, Debug)]
pub struct Extent {
    seats: usize,
    calls: usize,
    most: u64,
}

impl Extent {
    /// The extent of the line `explore SEATS CALLS MOST`; None if the line begins otherwise. An error if the words after
    /// `explore` are no numbers.
    pub fn read(line: &str) -> Result<Option<Extent>, CaseRefusal> {
        let mut words = line.split_whitespace();
        if words.next() != Some("explore") {
            return Ok(None);
        }
        let (Some(seats), Some(calls), Some(most)) = (words.next(), words.next(), words.next())
        else {
            return Err(CaseRefusal::Spelling);
        };
        Ok(Some(Extent {
            seats: seats.parse::<usize>()?,
            calls: calls.parse::<usize>()?,
            most: most.parse::<u64>()?,
        }))
    }
}

/// Makes the schedules, and gives their number, the number of their ends, and the ends.
pub fn explored<R: Wait>(
    rt: &R,
    alloc: Global,
    session: &Session,
    settings: Settings,
    budget: Budget,
    extent: Extent,
) -> Result<Vec<u8>, CaseRefusal>
    requires valid { IsSession (session_of session.now) }
    requires retries { settings.retries ≤ 4 }
{
    let mut path = Path::new(alloc, extent.seats, extent.calls);
    let mut ends = BTreeSet::new(alloc);
    let mut made = 0;
    for number in 0..extent.most {
        ends.insert(end_of(rt, alloc, session, settings, budget, &mut path)?)?;
        made = number;
        if !path.advance()? {
            break;
        }
    }
    told(alloc, made, &ends)
}

// The text for the schedules, of which the last has the number `last`, from 0, and for the ends.
fn told(alloc: Global, last: u64, ends: &BTreeSet<Vec<u8>>) -> Result<Vec<u8>, CaseRefusal> {
    let count = ends.len();
    let schedules = last.saturating_add(1);
    let line = format!(in alloc; "schedules {schedules}, ends {count}")?;
    let mut text = with_line(Vec::new(alloc), line.as_str())?;
    for end in ends {
        text.extend_from_slice(end.as_slice())?;
    }
    Ok(text)
}

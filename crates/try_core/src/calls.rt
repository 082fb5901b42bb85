//! Calls as lines of text.
use crate::statements::{Said, read_statement};
use base_types::{Choice, Update};
use lang_schema::Schema;
use std::alloc::Global;
use try_cases::{CaseRefusal, number_of};

/// A call on a core.
#[derive(Drop)]
pub enum Call {
    Make(Event),
    Drain,
    Ask(Asked),
}

/// A call that makes an event, unless it is refused.
#[derive(Drop)]
pub enum Event {
    Step(u32),
    Deliver(u32),
    Answer(u32, Choice),
    Withdraw(u32),
    Admit(Update),
}

/// A call that asks a core: for the standing of an update, for its question, for the numbers of updates and of committed updates,
/// for the core's result, or for the repository that the committed updates left.
#[derive(Clone, Copy)]
pub enum Asked {
    Standing(u32),
    Question(u32),
    Counts,
    Result,
    Repository,
}

/// The call that a line spells. An error if the line spells none.
pub fn read_call(alloc: Global, schema: &Schema, line: &str) -> Result<Call, CaseRefusal> {
    match line {
        "drain" => return Ok(Call::Drain),
        "counts" => return Ok(Call::Ask(Asked::Counts)),
        "result" => return Ok(Call::Ask(Asked::Result)),
        "repository" => return Ok(Call::Ask(Asked::Repository)),
        _ => {}
    }
    match line.split_once(' ') {
        Some(("step", name)) => Ok(Call::Make(Event::Step(number_of(name, 'u')?))),
        Some(("deliver", name)) => Ok(Call::Make(Event::Deliver(number_of(name, 'u')?))),
        Some(("withdraw", name)) => Ok(Call::Make(Event::Withdraw(number_of(name, 'u')?))),
        Some(("standing", name)) => Ok(Call::Ask(Asked::Standing(number_of(name, 'u')?))),
        Some(("question", name)) => Ok(Call::Ask(Asked::Question(number_of(name, 'u')?))),
        _ => stated(alloc, schema, line),
    }
}

// The call of a line that is spelled as a statement of a session.
fn stated(alloc: Global, schema: &Schema, line: &str) -> Result<Call, CaseRefusal> {
    match read_statement(alloc, schema, line)? {
        Said::Answer(label, choice) => {
            let name = std::str::from_utf8(label.as_slice())?;
            Ok(Call::Make(Event::Answer(number_of(name, 'u')?, choice)))
        }
        Said::Update(update) => Ok(Call::Make(Event::Admit(update))),
    }
}

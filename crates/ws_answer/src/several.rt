//! `answer` to several updates.

use crate::choosing::answer_to;
use crate::records::{is_waiting, steps_of, waiting_numbers};
use def_memory::Memory;
use std::alloc::{AllocError, Global};
use ws_command::SaidChoice;
use ws_fault::{Refusal, Status};
use ws_lines::Asked;
use ws_question::status_of;
use ws_report::{Counted, Done, Report, Telling, ranges_text, refuse, spent_fault};
use ws_run::Reason;
use ws_space::Space;
use ws_state::{Mark, Told};
use ws_written::{Choice, Line};

/// What was answered so far: the lines, and the updates that are done.
#[derive(Drop)]
struct Answers {
    lines: Vec<Line>,
    done: Vec<u32>,
}

/// Answers updates, one after the other. Either it answers `new` to each question which candidate a tuple is, until the update is
/// done or asks which tuples go; or it says `go` to each update with nothing in its way. It is refused if none of them waits.
pub fn answer_several(
    alloc: Global,
    space: &mut Space,
    numbers: &[u32],
    choice: &SaidChoice,
) -> Result<Done, Refusal> {
    let take = waiting_of(alloc, space, numbers)?;
    let mut answers = Answers {
        lines: Vec::new(alloc),
        done: Vec::new(alloc),
    };
    match answers.all(alloc, space, take.as_slice(), is_go(choice)) {
        Ok(report) => {
            let Answers { lines, .. } = answers;
            Ok(Done { report, lines })
        }
        Err(refusal) => {
            drop(answers);
            Err(refusal)
        }
    }
}

fn is_go(choice: &SaidChoice) -> bool {
    match choice {
        SaidChoice::Go => true,
        _ => false,
    }
}

// The updates that wait. It is refused if none does.
fn waiting_of(alloc: Global, space: &Space, numbers: &[u32]) -> Result<Vec<u32>, Refusal> {
    let waiting = among(alloc, space, numbers)?;
    if waiting.is_empty() {
        if let Some(first) = numbers.first() {
            status_of(alloc, space, *first)?;
        }
        return refuse(alloc, "none of these updates waits", "");
    }
    Ok(waiting)
}

// The updates that wait, in the same order.
fn among(alloc: Global, space: &Space, numbers: &[u32]) -> Result<Vec<u32>, Memory> {
    let all = waiting_numbers(alloc, space)?;
    let mut waiting = Vec::new(alloc);
    for number in numbers {
        if all.contains(number) {
            waiting.push(*number)?;
        }
    }
    Ok(waiting)
}

fn said_text(alloc: Global, numbers: &[u32], goes: bool) -> Result<String, Refusal> {
    let ranges = ranges_text(alloc, numbers)?;
    let word = if goes { "go" } else { "expand" };
    Ok(format!(in alloc; "answer {ranges} {word}")?)
}

fn nothing_changed(alloc: Global, text: String) -> Result<Report, Memory> {
    let mut also = Vec::new(alloc);
    also.push(String::from_str(alloc, "none of them takes this answer")?)?;
    let mut report = Report::of(alloc, Status::Nothing, "nothing changed", text);
    report.telling = Telling::Brief;
    report.also = also;
    Ok(report)
}

// The question which candidate a tuple is, if the update waits for its answer.
fn positive(reason: Option<Reason>) -> Option<Asked> {
    match reason {
        Some(Reason::Asks(question)) if question.is_positive => Some(question.asked),
        _ => None,
    }
}

impl Answers {
    // Answers each of the updates, and reports it.
    fn all(
        &mut self,
        alloc: Global,
        space: &mut Space,
        take: &[u32],
        goes: bool,
    ) -> Result<Report, Refusal> {
        let mark = space.state.mark();
        for number in take {
            if goes {
                self.go(alloc, space, *number)?;
            } else {
                self.expand(alloc, space, *number)?;
            }
        }
        let text = said_text(alloc, take, goes)?;
        if self.lines.is_empty() {
            return Ok(nothing_changed(alloc, text)?);
        }
        Ok(self.told(alloc, space, take, text, mark)?)
    }

    // Lets an update try again if nothing is in its way.
    fn go(&mut self, alloc: Global, space: &mut Space, number: u32) -> Result<(), Refusal> {
        if !is_waiting(space, number) || space.question(alloc, number)?.is_some() {
            return Ok(());
        }
        self.take(alloc, space, number, Line::Go(number))?;
        Ok(())
    }

    // Answers, one after the other, an update's questions which candidate a tuple is.
    fn expand(&mut self, alloc: Global, space: &mut Space, number: u32) -> Result<(), Refusal> {
        let mut next = positive(space.question(alloc, number)?);
        for _ in 0..u64::MAX {
            let Some(asked) = next else {
                break;
            };
            next = self.expand_one(alloc, space, number, &asked)?;
        }
        Ok(())
    }

    // Answers one question, and returns the next of the same kind.
    fn expand_one(
        &mut self,
        alloc: Global,
        space: &mut Space,
        number: u32,
        asked: &Asked,
    ) -> Result<Option<Asked>, Refusal> {
        let answer = answer_to(alloc, space, asked, Choice::Expand)?;
        let reason = self.take(alloc, space, number, Line::Answer(number, answer))?;
        Ok(positive(reason))
    }

    // Takes the line of an update, keeps it, and returns the reason if the update waits.
    fn take(
        &mut self,
        alloc: Global,
        space: &mut Space,
        number: u32,
        line: Line,
    ) -> Result<Option<Reason>, Refusal> {
        match take_line(alloc, space, number, &line) {
            Ok(reason) => {
                self.keep(number, line, reason.is_none())?;
                Ok(reason)
            }
            Err(refusal) => {
                drop(line);
                Err(refusal)
            }
        }
    }

    // Keeps the line, and the number of the update if it is done.
    fn keep(&mut self, number: u32, line: Line, is_done: bool) -> Result<(), AllocError> {
        self.lines.push(line)?;
        if is_done {
            self.done.push(number)?;
        }
        Ok(())
    }

    fn told(
        &self,
        alloc: Global,
        space: &Space,
        take: &[u32],
        text: String,
        mark: Mark,
    ) -> Result<Report, Memory> {
        let mut waiting = among(alloc, space, take)?;
        waiting.sort_unstable();
        let mut report = report_of(alloc, space, text, mark, !waiting.is_empty())?;
        report.also = also_of(alloc, self.done.as_slice(), waiting.as_slice())?;
        report.next = next_of(alloc, waiting.as_slice())?;
        let mut numbers = Vec::new(alloc);
        numbers.extend_from_slice(self.done.as_slice())?;
        report.counted = Some(Counted { numbers, waiting });
        Ok(report)
    }
}

// The report of what the answers did.
fn report_of(
    alloc: Global,
    space: &Space,
    text: String,
    mark: Mark,
    waits: bool,
) -> Result<Report, Memory> {
    let effect = space.state.effect_since(alloc, mark)?;
    let status = if waits { Status::Waits } else { Status::Done };
    let did = if waits { "waits" } else { "done" };
    let mut report = Report::with_effect(alloc, status, did, text, effect);
    report.telling = Telling::Brief;
    Ok(report)
}

// Takes the line of an update, and returns the reason if it waits. It is refused if its steps do not suffice.
fn take_line(
    alloc: Global,
    space: &mut Space,
    number: u32,
    line: &Line,
) -> Result<Option<Reason>, Refusal> {
    let Told { reason, .. } = space.take(alloc, line)?;
    match reason {
        Some(Reason::TooLong(made)) => {
            let steps = steps_of(space, number);
            Err(spent_fault(alloc, space, steps, &made)?)
        }
        reason => Ok(reason),
    }
}

// The lines for the updates that are done, and for the updates that wait.
fn also_of(alloc: Global, done: &[u32], waiting: &[u32]) -> Result<Vec<String>, Memory> {
    let mut also = Vec::new(alloc);
    if let [_, ..] = done {
        let ranges = ranges_text(alloc, done)?;
        also.push(format!(in alloc; "done: {ranges}")?)?;
    }
    if let [_, ..] = waiting {
        let ranges = ranges_text(alloc, waiting)?;
        also.push(format!(in alloc; "wait: {ranges}")?)?;
    }
    Ok(also)
}

fn next_of(alloc: Global, waiting: &[u32]) -> Result<Vec<String>, AllocError> {
    let mut next = Vec::new(alloc);
    if let [_, ..] = waiting {
        next.push(String::from_str(alloc, "questions")?)?;
    }
    Ok(next)
}

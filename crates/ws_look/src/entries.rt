//! The lines of records as `log` prints them.

use base_types::Memory;
use std::alloc::Global;
use std::fmt::Write;
use ws_print::{Text, add_choice, add_line, add_update};
use ws_question::status_word;
use ws_space::{Recorded, Space, Statuses};
use ws_state::Status;
use ws_written::{Line, Relation, SaidLine, Stamp};

/// A line of a record: the record's number and stamp, the number and status of the update, if it is one, the line in printed
/// form, and its comment.
#[derive(Drop)]
pub(crate) struct Entry<'a> {
    pub at: u32,
    pub stamp: &'a Stamp,
    pub number: Option<u32>,
    pub state: &'static str,
    pub text: String,
    pub comment: &'a str,
}

/// The first lines of a record, at most `most`. If `statuses` is None, the status of each update is looked up on its own.
pub(crate) fn entries_of<'a>(
    alloc: Global,
    space: &Space,
    statuses: Option<&Statuses>,
    recorded: &'a Recorded,
    most: usize,
) -> Result<Vec<Entry<'a>>, Memory> {
    let mut entries = Vec::new(alloc);
    for said in recorded.record.lines.iter().take(most) {
        entries.push(entry_of(alloc, space, statuses, recorded, said)?)?;
    }
    Ok(entries)
}

fn entry_of<'a>(
    alloc: Global,
    space: &Space,
    statuses: Option<&Statuses>,
    recorded: &'a Recorded,
    said: &'a SaidLine,
) -> Result<Entry<'a>, Memory> {
    let number = number_of(said);
    Ok(Entry {
        at: recorded.at,
        stamp: &recorded.record.stamp,
        number,
        state: state_of(space, statuses, number),
        text: line_text(alloc, space.relations.as_slice(), &said.line)?,
        comment: said.comment.as_str(),
    })
}

// The number of the update, if the line says one.
fn number_of(said: &SaidLine) -> Option<u32> {
    match &said.line {
        Line::Update(numbered) => Some(numbered.number),
        _ => None,
    }
}

/// The number of the update that a record's last line says, if it says one.
pub(crate) fn last_number(recorded: &Recorded) -> Option<u32> {
    match recorded.record.lines.last() {
        Some(said) => number_of(said),
        None => None,
    }
}

fn state_of(space: &Space, statuses: Option<&Statuses>, number: Option<u32>) -> &'static str {
    let number = number.unwrap_or(0);
    let status = match statuses {
        Some(statuses) => statuses.status(number),
        None => space.state.status(number),
    };
    match status {
        Some(status) => status_word(status),
        None => "",
    }
}

// The line without an update's number and budget, and without an answer's question.
fn line_text(alloc: Global, relations: &[Relation], line: &Line) -> Result<String, Memory> {
    let mut text = Text::new(alloc);
    add_text(&mut text, relations, line);
    Ok(text.done()?)
}

fn add_text(text: &mut Text, relations: &[Relation], line: &Line) {
    match line {
        Line::Update(numbered) => add_update(text, relations, &numbered.update),
        Line::Answer(number, answer) => {
            write!(text, "answer {number} ");
            add_choice(text, relations, &answer.choice)
        }
        other => add_line(text, relations, other),
    }
}

/// `R  TIME  CURATOR  [N ]LINE[  (STATE)][  # COMMENT]`.
pub(crate) fn entry_line(alloc: Global, entry: &Entry<'_>) -> Result<String, Memory> {
    let mut line = Text::new(alloc);
    add_entry(&mut line, entry);
    add_state(&mut line, entry);
    Ok(line.done()?)
}

fn add_entry(line: &mut Text, entry: &Entry<'_>) {
    let at = entry.at;
    let time = entry.stamp.time.as_str();
    let curator = entry.stamp.curator.as_str();
    write!(line, "{at}  {time}  {curator}  ");
    if let Some(number) = entry.number {
        write!(line, "{number} ");
    }
    line.push_str(entry.text.as_str())
}

fn add_state(line: &mut Text, entry: &Entry<'_>) {
    let state = entry.state;
    if entry.number.is_some() && state != status_word(Status::Stands) {
        write!(line, "  ({state})");
    }
    if !entry.comment.is_empty() {
        line.push_str("  # ");
        line.push_str(entry.comment);
    }
}

//! The log of a page: each line of each record, with the status of its update.

use crate::pages::Document;
use base_types::Memory;
use std::alloc::{AllocError, Global};
use std::fmt::Write;
use ws_draw::add_html;
use ws_print::{Text, add_choice, add_line, add_update};
use ws_question::status_word;
use ws_space::{Recorded, Space, Statuses};
use ws_state::Status;
use ws_written::{Line, Relation};

const HEADER: &str =
    "<h2 id=\"log\">Log</h2><div class=\"wide\"><table><tr><th scope=\"col\">Record</th>\
     <th scope=\"col\">When</th><th scope=\"col\">Who</th><th scope=\"col\">Update</th>\
     <th scope=\"col\">Command</th><th scope=\"col\">State</th></tr>";

/// Adds the log, which ends the page.
pub(crate) fn add_log(document: &mut Document, space: &Space) -> Result<(), Memory> {
    document.say(HEADER);
    let statuses = Statuses::of(document.alloc, &space.state)?;
    let relations = space.relations.as_slice();
    for recorded in space.records.iter() {
        add_record(document, relations, &statuses, recorded)?;
    }
    document.say("</table></div></body></html>");
    Ok(())
}

fn add_record(
    document: &mut Document,
    relations: &[Relation],
    statuses: &Statuses,
    recorded: &Recorded,
) -> Result<(), AllocError> {
    let begin = beginning(document, recorded)?;
    for said in recorded.record.lines.iter() {
        let mut line = Text::from_str(document.alloc, begin.as_str());
        add_cells(document.alloc, &mut line, relations, statuses, &said.line)?;
        document.made(line.done());
    }
    Ok(())
}

// The cells that all lines of a record share.
fn beginning(document: &Document, recorded: &Recorded) -> Result<String, AllocError> {
    let at = recorded.at;
    let time = document.shown(recorded.record.stamp.time.as_str())?;
    let curator = document.shown(recorded.record.stamp.curator.as_str())?;
    let alloc = document.alloc;
    format!(in alloc; "<tr><td class=\"n\">{at}</td><td>{time}</td><td>{curator}</td>")
}

// Adds the cells of a line: the number of its update, the line, and the update's status.
fn add_cells(
    alloc: Global,
    out: &mut Text,
    relations: &[Relation],
    statuses: &Statuses,
    line: &Line,
) -> Result<(), AllocError> {
    out.push_str("<td class=\"n\">");
    let mut state = "";
    if let Line::Update(numbered) = line {
        let number = numbered.number;
        write!(out, "{number}");
        state = state_word(statuses.status(number));
    }
    out.push_str("</td><td><code>");
    add_html(out, line_text(alloc, relations, line)?.as_str());
    write!(out, "</code></td><td>{state}</td></tr>");
    Ok(())
}

fn state_word(status: Option<Status>) -> &'static str {
    match status {
        Some(Status::Stands) => "done",
        Some(status) => status_word(status),
        None => "",
    }
}

// The line without its update's number, and without an answer's question.
fn line_text(alloc: Global, relations: &[Relation], line: &Line) -> Result<String, AllocError> {
    let mut text = Text::new(alloc);
    match line {
        Line::Update(numbered) => add_update(&mut text, relations, &numbered.update),
        Line::Answer(number, answer) => {
            write!(text, "answer {number} ");
            add_choice(&mut text, relations, &answer.choice);
        }
        _ => add_line(&mut text, relations, line),
    }
    text.done()
}

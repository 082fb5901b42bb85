//! The reply of a change.

use crate::notes::Note;
use crate::reports::{AgainTold, Report};
use crate::rows::effect_rows;
use crate::words::joined;
use def_memory::Memory;
use std::alloc::Global;
use ws_print::{Lines, Text};
use ws_question::question_lines;
use ws_reply::{Context, Kind, Reply};
use ws_space::Space;

/// The greatest number of a question's candidates that the reply to a change lists.
pub const CANDIDATES: usize = 10;

impl Report {
    /// The reply to a change that was done over the workspace; `is_recorded` says whether a record of it follows.
    pub fn reply(
        &self,
        alloc: Global,
        space: &Space,
        context: &Context<'_>,
        is_recorded: bool,
    ) -> Result<Reply, Memory> {
        let kind = if context.trying {
            Kind::Try
        } else {
            Kind::Change
        };
        if context.is_json() {
            let at = at_after(space, context, is_recorded);
            let object = self.object(alloc, space, context.trying, at)?;
            return Ok(Reply::of_object(alloc, self.status, kind, object)?);
        }
        let lines = self.lines(alloc, space, context.trying)?;
        Ok(Reply::of_text(self.status, kind, lines))
    }

    /// The reply, as `reply` makes it, for a report that is of no use any more.
    pub fn into_reply(
        self,
        alloc: Global,
        space: &Space,
        context: &Context<'_>,
        is_recorded: bool,
    ) -> Result<Reply, Memory> {
        self.reply(alloc, space, context, is_recorded)
    }

    // `[try ][N ]DID: LINE`.
    fn head(&self, alloc: Global, trying: bool) -> Result<String, Memory> {
        let mut head = Text::new(alloc);
        if trying {
            head.push_str("try ");
        }
        if let Some(number) = self.number {
            write!(head, "{number} ");
        }
        head.push_str(self.did);
        head.push_str(": ");
        head.push_str(self.line.as_str());
        Ok(head.done()?)
    }

    fn lines(&self, alloc: Global, space: &Space, trying: bool) -> Result<Vec<String>, Memory> {
        let mut lines = Lines::new(alloc);
        lines.made(self.head(alloc, trying));
        let rows = effect_rows(alloc, space, self)?;
        add_indented(alloc, &mut lines, rows.as_slice());
        add_indented(alloc, &mut lines, self.also.as_slice());
        self.add_question(alloc, space, &mut lines)?;
        add_again(alloc, &mut lines, self.again.as_slice());
        add_notes(alloc, &mut lines, self.notes.as_slice());
        if !trying && !self.next.is_empty() {
            lines.made(next_line(alloc, self.next.as_slice()));
        }
        Ok(lines.done()?)
    }

    fn add_question(&self, alloc: Global, space: &Space, lines: &mut Lines) -> Result<(), Memory> {
        if let Some(question) = &self.question {
            let rows = question_lines(alloc, space, question, None, CANDIDATES)?;
            add_indented(alloc, lines, rows.as_slice());
        }
        Ok(())
    }
}

fn add_notes(alloc: Global, lines: &mut Lines, notes: &[Note]) {
    for note in notes {
        lines.made(note.line(alloc));
    }
}

// The line of the commands that may follow.
fn next_line(alloc: Global, next: &[String]) -> Result<String, Memory> {
    let next = joined(alloc, next, " | ")?;
    Ok(format!(in alloc; "next: {next}")?)
}

// The number of the last record after the change has its own, if it gets one.
fn at_after(space: &Space, context: &Context<'_>, is_recorded: bool) -> u32 {
    if is_recorded && !context.trying {
        return space.at().saturating_add(1);
    }
    space.at()
}

fn add_again(alloc: Global, lines: &mut Lines, again: &[AgainTold]) {
    for one in again {
        let words = one.words.as_str();
        lines.made(format!(in alloc; "  ! {words}"));
    }
}

// Adds the rows, with two blanks in front of each.
fn add_indented(alloc: Global, lines: &mut Lines, rows: &[String]) {
    for row in rows {
        lines.made(format!(in alloc; "  {row}"));
    }
}

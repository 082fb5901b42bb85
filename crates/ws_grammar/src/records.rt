//! Records of the log, line by line.

use crate::cursors::Cursor;
use crate::items::Item;
use crate::stamps::record_stamp;
use crate::standing::Names;
use std::alloc::{AllocError, Global};
use ws_fault::Refusal;
use ws_written::{Answer, Line, NumberedUpdate, Relation, Rule, SaidLine, Stamp};

impl<'a> Cursor<'a> {
    fn log_line(&mut self) -> Result<SaidLine, Refusal> {
        let line = if self.is_number() {
            Line::Update(NumberedUpdate::read(self)?)
        } else {
            self.plain_line()?
        };
        match self.log_comment() {
            Ok(comment) => Ok(SaidLine { line, comment }),
            Err(refusal) => {
                drop(line);
                Err(refusal)
            }
        }
    }

    // The comment of a line of the log that must end here.
    fn log_comment(&self) -> Result<String, Refusal> {
        self.end_of_file_line()?;
        Ok(self.comment()?)
    }

    // A line that is no update.
    fn plain_line(&mut self) -> Result<Line, Refusal> {
        match self.name("a line")? {
            "answer" => self.answer_line(),
            "undo" => self.undo_line(),
            "redo" => Ok(Line::Redo(self.rising()?)),
            "relation" => Ok(Line::Relation(Relation::read(self)?)),
            "mapping" => Ok(Line::Mapping(Rule::read(self)?)),
            _ => self.fail("a line"),
        }
    }

    fn answer_line(&mut self) -> Result<Line, Refusal> {
        let number = self.update_number()?;
        if self.take_word("go") {
            return Ok(Line::Go(number));
        }
        Ok(Line::Answer(number, Answer::read(self)?))
    }

    fn undo_line(&mut self) -> Result<Line, Refusal> {
        let numbers = self.rising()?;
        if self.take_sign("--answers") {
            return Ok(Line::UndoAnswers(numbers));
        }
        Ok(Line::Undo(numbers))
    }

    // Rising numbers of updates, `N, N..M, ..`.
    fn rising(&mut self) -> Result<Vec<u32>, Refusal> {
        let numbers = self.numbers()?;
        if rise(numbers.as_slice()) {
            return Ok(numbers);
        }
        self.fail("numbers that rise")
    }
}

fn rise(numbers: &[u32]) -> bool {
    let mut last = 0u32;
    for number in numbers {
        if *number <= last {
            return false;
        }
        last = *number;
    }
    true
}

/// The result of reading, with None in the place of a fault.
pub(crate) fn readable<T: Drop>(read: Result<T, Refusal>) -> Result<Option<T>, AllocError> {
    match read {
        Ok(read) => Ok(Some(read)),
        Err(Refusal::Fault(_)) => Ok(None),
        Err(Refusal::Memory) => Err(AllocError),
    }
}

/// Reads the stamp of a record's text, and returns it with the text of the lines. None if the text does not have both.
pub fn read_stamp(alloc: Global, text: &[u8]) -> Result<Option<(Stamp, &str)>, AllocError> {
    let Ok(text) = str::from_utf8(text) else {
        return Ok(None);
    };
    let Some((first, lines)) = text.split_once('\n') else {
        return Ok(None);
    };
    match record_stamp(alloc, first)? {
        Some(stamp) => Ok(Some((stamp, lines))),
        None => Ok(None),
    }
}

/// Reads a line of a record, over the relations that stand before the line. None if the text is not a line.
pub fn read_line(
    alloc: Global,
    relations: &[Relation],
    line: &str,
) -> Result<Option<SaidLine>, AllocError> {
    readable(Cursor::over(alloc, Names::of(relations), line).log_line())
}

//! Lines, one after the other, up to the first fault.

ghost use Rattle.std.specs.Prelude.{◌≡◌, ◌+◌, ◌^◌, ◌<◌, Err, length, IfErr, IfOk};
ghost use Rattle.std.specs.List.{count_by};
ghost use Rattle.lang_forms.specs.Statements.{section_meant, statement_of};
ghost use Rattle.lang_forms.specs.Views.{words_of as words_meant};
ghost use Rattle.def_language.specs.Forms.{section_of};
ghost use Rattle.def_language.specs.Lines.{begun, closed, line_at, line_in, line_with, lines_from, lines_of, numbered, open_line};
ghost use Rattle.def_language.specs.Bytes.{is_line_feed};
ghost use Rattle.lang_reader.specs.Answers.{Fails, Gives, GivesWhole};
ghost use Rattle.lang_reader.specs.States.{state_of};

use crate::faults::{FaultKind, LineRefusal, ReadFailure, SessionFault};
use crate::split::first_line;
use crate::words::words_at;
use lang_checks::Draft;
use lang_forms::{RawStatement, Section, Words, statement_at};
use std::alloc::Global;

/// The state of reading: the section, and the session so far.
#[derive(Drop)]
pub(crate) struct Reader {
    section: Section,
    draft: Draft,
}

// The section that a statement belongs to.
fn section_of(statement: &RawStatement) -> Section
    ensures { section_meant result ≡ section_of (statement_of statement.now) }
{
    match statement {
        RawStatement::Header(_) => Section::Relations,
        RawStatement::Relation(_, _) => Section::Relations,
        RawStatement::Mapping(_) => Section::Mappings,
        RawStatement::Base(_) => Section::Tuples,
        RawStatement::Update(_, _, _) => Section::Updates,
        RawStatement::Answer(_, _) => Section::Updates,
        RawStatement::End => Section::Ended,
    }
}

impl Reader {
    /// The reader before the header.
    pub(crate) fn new(alloc: Global) -> Reader
        ensures begun { state_of result ≡ begun }
    {
        Reader {
            section: Section::Beginning,
            draft: Draft::new(alloc, 1),
        }
    }

    // Takes a line that is not blank, before `end`.
    #[tactic(auto, unfolding(def_language::specs::Lines::open_line))]
    fn open_line(&mut self, alloc: Global, words: Words<'_>) -> Result<(), LineRefusal>
        ensures { Gives (λ _. state_of self.new) result
            (open_line (state_of self.old) (words_meant words.entry)) }
    {
        let statement = statement_at(alloc, self.section, self.draft.format(), words)?;
        let section = section_of(&statement);
        self.draft.take(alloc, statement)?;
        self.section = section;
        Ok(())
    }

    // Takes a line with these words.
    #[tactic(auto, unfolding(def_language::specs::Lines::line_with))]
    fn line_with(&mut self, alloc: Global, words: Words<'_>) -> Result<(), LineRefusal>
        ensures { Gives (λ _. state_of self.new) result
            (line_with (state_of self.old) (words_meant words.entry)) }
    {
        if words.split_first().is_none() {
            return Ok(());
        }
        if self.section == Section::Ended {
            return Err(LineRefusal::Fault(FaultKind::AfterEnd));
        }
        self.open_line(alloc, words)
    }

    // Takes the line that begins at the place.
    fn line_at(&mut self, alloc: Global, start: usize, line: &[u8]) -> Result<(), LineRefusal>
        requires { start + length line.now < 2 ^ 64 }
        ensures { Gives (λ _. state_of self.new) result
            (line_at start (state_of self.old) line.now) }
    {
        let words = words_at(start, line)?;
        self.line_with(alloc, words)
    }

    // Takes the line of this number, which begins at the place.
    fn numbered_line(
        &mut self,
        alloc: Global,
        number: u32,
        start: usize,
        line: &[u8],
    ) -> Result<(), ReadFailure>
        requires { start + length line.now < 2 ^ 64 }
        ensures { GivesWhole (λ _. state_of self.new) result
            (numbered number (line_at start (state_of self.old) line.now)) }
    {
        match self.line_at(alloc, start, line) {
            Ok(()) => Ok(()),
            Err(LineRefusal::Memory) => Err(ReadFailure::Memory),
            Err(LineRefusal::Fault(kind)) => {
                Err(ReadFailure::Fault(SessionFault { line: number, kind }))
            }
        }
    }
}

// The draft after the last line, which has this number.
fn closed(number: u32, reader: Reader) -> Result<Draft, ReadFailure>
    ensures { GivesWhole (λ draft. draft) result
        (numbered number (closed (section_meant reader.section) reader.draft)) }
{
    let kind = match reader.section {
        Section::Ended => return Ok(reader.draft),
        Section::Beginning => FaultKind::Header,
        _ => FaultKind::NoEnd,
    };
    Err(ReadFailure::Fault(SessionFault { line: number, kind }))
}

// Takes the lines of a text, up to the first fault. It returns the number of lines.
fn take_lines(alloc: Global, reader: &mut Reader, bytes: &[u8]) -> Result<u32, ReadFailure>
    requires few_lines { count_by is_line_feed bytes.now < 4294967295 }
    ensures taken { IfOk result (λ number.
        numbered number (closed (section_meant reader.new.section) reader.new.draft) ≡
        lines_from 0 0 (state_of reader.old) (lines_of bytes.now)) }
    ensures failed { IfErr result (λ failure.
        Fails failure (lines_from 0 0 (state_of reader.old) (lines_of bytes.now))) }
{
    let mut number = 0;
    let mut start = 0;
    let mut rest = Some(bytes);
    'lines: while let Some(text) = rest {
        let (line, after) = first_line(text);
        number += 1;
        reader.numbered_line(alloc, number, start, line)?;
        start += line.len() + 1;
        rest = after;
    }
    Ok(number)
}

/// The session of the lines of a text, or the first fault.
pub(crate) fn read_lines(alloc: Global, bytes: &[u8]) -> Result<Draft, ReadFailure>
    requires few_lines { count_by is_line_feed bytes.now < 4294967295 }
    ensures { GivesWhole (λ draft. draft) result (lines_from 0 0 begun (lines_of bytes.now)) }
{
    let mut reader = Reader::new(alloc);
    let number = take_lines(alloc, &mut reader, bytes)?;
    closed(number, reader)
}

//! Lines of the log, and its records.

use crate::facts::Fact;
use crate::relations::Relation;
use crate::rules::Rule;
use crate::updates::NumberedUpdate;

/// The choice that answers a question.
#[derive(Drop)]
pub enum Choice {
    Expand,
    Unify(Fact),
    Delete(Vec<Fact>),
}

/// A question, as an answer names it: its mapping (`_fix_m` for the question of a `fix` of `m`), and the tuple that the mapping
/// wants or the tuples that may be deleted.
#[derive(Drop)]
pub struct Question {
    pub mapping: String,
    pub facts: Vec<Fact>,
}

/// A choice, and the question that it answers.
#[derive(Drop)]
pub struct Answer {
    pub choice: Choice,
    pub question: Question,
}

/// A line of the log: what an accepted command did, or one part of it.
pub enum Line {
    Update(NumberedUpdate),
    /// An answer to the question of this update.
    Answer(u32, Answer),
    /// This update is tried again.
    Go(u32),
    /// These updates and their answers do not count any more. The numbers rise.
    Undo(Vec<u32>),
    /// The answers that these updates took up to here do not count any more. The numbers rise.
    UndoAnswers(Vec<u32>),
    /// These updates and their answers count again. The numbers rise.
    Redo(Vec<u32>),
    Relation(Relation),
    Mapping(Rule),
}

impl Drop for Line {
    fn drop(self) {
        match self {
            Line::Update(update) => drop(update),
            Line::Answer(_, answer) => drop(answer),
            Line::Go(_) => {}
            Line::Undo(numbers) => drop(numbers),
            Line::UndoAnswers(numbers) => drop(numbers),
            Line::Redo(numbers) => drop(numbers),
            Line::Relation(relation) => drop(relation),
            Line::Mapping(rule) => drop(rule),
        }
    }
}

/// A line with its comment, which is empty if none was given.
#[derive(Drop)]
pub struct SaidLine {
    pub line: Line,
    pub comment: String,
}

/// The time of a command, as `YYYY-MM-DDThh:mm:ssZ`, and the name of the curator who gave it.
#[derive(Drop)]
pub struct Stamp {
    pub time: String,
    pub curator: String,
}

/// A record of the log: all lines of one command.
#[derive(Drop)]
pub struct Record {
    pub stamp: Stamp,
    pub lines: Vec<SaidLine>,
}

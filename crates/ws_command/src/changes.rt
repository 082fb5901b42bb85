//! Commands that change the workspace.

use crate::patterns::{Pattern, Replacement};
use ws_written::{Fact, NewFact, Relation, Rule, Value};

/// The limits of an update.
#[derive(Clone, Copy)]
pub struct Bounds {
    /// `--only`: only tuples that are named may come or go.
    pub only: bool,
    /// `--cascade`: tuples that are not named may go too.
    pub cascade: bool,
    /// `--steps N`: the budget of the update.
    pub steps: u32,
}

/// The choice of an answer, as the command gives it.
#[derive(Drop)]
pub enum SaidChoice {
    /// No choice, or `go`.
    Go,
    /// Candidates by their numbers.
    Numbers(Vec<u32>),
    /// `new` or `expand`.
    New,
    /// Candidates as tuples.
    Facts(Vec<Fact>),
    Unify(Fact),
    Delete(Vec<Fact>),
}

/// The source of rows.
#[derive(Drop)]
pub enum Source {
    /// A file; `-` is standard input.
    File(String),
    /// `--lines N`: the next lines of the input.
    Lines(u32),
}

/// `load`, with the words of its options as the command gives them.
#[derive(Drop)]
pub struct Load {
    pub relation: String,
    pub source: Source,
    pub create: bool,
    pub unknowns: bool,
    pub steps: u32,
    pub empty: Option<String>,
    pub separator: Option<String>,
    pub text: Option<String>,
    pub null: Option<String>,
    pub columns: Option<String>,
}

/// A change that a command asks for.
#[derive(Drop)]
pub enum Change {
    Relation(Relation),
    Mapping(Rule),
    /// Repairs the violations of a mapping, each repair with this budget of steps.
    Adopt(String, u32),
    Drop(String),
    Insert(Vec<NewFact>, Bounds),
    Delete(Vec<Pattern>, Bounds),
    /// `replace ?U.P with V`: the first value is an unknown.
    Fill(Value, Value, Bounds),
    /// `replace F with G`.
    Replace(Pattern, Replacement, Bounds),
    /// Answers these updates, each once, in this order; `at` is the record of `--at`.
    Answer {
        numbers: Vec<u32>,
        choice: SaidChoice,
        at: Option<u32>,
    },
    Undo(Vec<u32>),
    /// `undo .. --answers`.
    UndoAnswers(Vec<u32>),
    Redo(Vec<u32>),
    Load(Load),
    Fold,
}

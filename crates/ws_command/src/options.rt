//! The options at the end of a command.

use crate::verbs::Verb;

/// An option.
#[derive(Clone, Copy, PartialEq, Eq)]
pub enum Opt {
    Only,
    Steps,
    Cascade,
    At,
    Answers,
    Still,
    Create,
    Empty,
    Separator,
    Text,
    Unknowns,
    Null,
    Columns,
    Lines,
    Limit,
    From,
    Like,
    Dot,
    Mine,
    Since,
    Csv,
    Sql,
    Json,
    Sqlite,
    To,
}

/// The kind of value that follows an option.
#[derive(Clone, Copy, PartialEq, Eq)]
pub enum OptKind {
    /// Nothing.
    Flag,
    /// A number from 1 to 1,000,000.
    Count,
    /// The number of a record, from 0.
    Record,
    /// A word.
    Word,
}

impl Opt {
    /// The name of the option, without the `--` in front.
    pub fn name(self) -> &'static str {
        match self {
            Opt::Only => "only",
            Opt::Steps => "steps",
            Opt::Cascade => "cascade",
            Opt::At => "at",
            Opt::Answers => "answers",
            Opt::Still => "still",
            Opt::Create => "create",
            Opt::Empty => "empty",
            Opt::Separator => "separator",
            Opt::Text => "text",
            Opt::Unknowns => "unknowns",
            Opt::Null => "null",
            Opt::Columns => "columns",
            Opt::Lines => "lines",
            Opt::Limit => "limit",
            Opt::From => "from",
            Opt::Like => "like",
            Opt::Dot => "dot",
            Opt::Mine => "mine",
            Opt::Since => "since",
            Opt::Csv => "csv",
            Opt::Sql => "sql",
            Opt::Json => "json",
            Opt::Sqlite => "sqlite",
            Opt::To => "to",
        }
    }

    /// The kind of value that follows the option.
    pub fn kind(self) -> OptKind {
        match self {
            Opt::Steps | Opt::Lines | Opt::Limit | Opt::From => OptKind::Count,
            Opt::At | Opt::Still | Opt::Since => OptKind::Record,
            Opt::Empty | Opt::Separator | Opt::Text | Opt::Null => OptKind::Word,
            Opt::Columns | Opt::Like | Opt::Sqlite | Opt::To => OptKind::Word,
            _ => OptKind::Flag,
        }
    }
}

const INSERT: [Opt; 3] = [Opt::Only, Opt::Steps, Opt::Still];

const DELETE: [Opt; 4] = [Opt::Only, Opt::Cascade, Opt::Steps, Opt::Still];

const ANSWER: [Opt; 2] = [Opt::At, Opt::Still];

const UNDO: [Opt; 2] = [Opt::Answers, Opt::Still];

const ADOPT: [Opt; 2] = [Opt::Steps, Opt::Still];

const LOAD: [Opt; 10] = [
    Opt::Create,
    Opt::Empty,
    Opt::Separator,
    Opt::Text,
    Opt::Unknowns,
    Opt::Steps,
    Opt::Null,
    Opt::Columns,
    Opt::Lines,
    Opt::Still,
];

const SHOW: [Opt; 4] = [Opt::Limit, Opt::Unknowns, Opt::From, Opt::Like];

const ASK: [Opt; 2] = [Opt::Unknowns, Opt::Limit];

const WHY: [Opt; 1] = [Opt::Dot];

const QUESTIONS: [Opt; 3] = [Opt::Like, Opt::Limit, Opt::Mine];

const VIOLATIONS: [Opt; 1] = [Opt::Limit];

const LOG: [Opt; 2] = [Opt::Limit, Opt::Since];

const EXPORT: [Opt; 4] = [Opt::Csv, Opt::Sql, Opt::Json, Opt::To];

const CHANGE: [Opt; 1] = [Opt::Still];

const FILE: [Opt; 1] = [Opt::To];

impl Verb {
    /// The options that the command takes, in the order in which a hint lists them. `--sqlite` of `export` is not listed.
    pub fn options(self) -> &'static [Opt] {
        match self {
            Verb::Insert => &INSERT,
            Verb::Delete | Verb::Replace => &DELETE,
            Verb::Answer => &ANSWER,
            Verb::Undo => &UNDO,
            Verb::Adopt => &ADOPT,
            Verb::Load => &LOAD,
            Verb::Relation | Verb::Mapping | Verb::Drop | Verb::Redo | Verb::Fold => &CHANGE,
            Verb::Show => &SHOW,
            Verb::Ask => &ASK,
            Verb::Why => &WHY,
            Verb::Questions => &QUESTIONS,
            Verb::Violations => &VIOLATIONS,
            Verb::Log => &LOG,
            Verb::Export => &EXPORT,
            Verb::Graph | Verb::Page | Verb::Dump => &FILE,
            Verb::Status | Verb::Try | Verb::Help | Verb::Quit => &[],
        }
    }
}

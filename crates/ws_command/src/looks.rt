//! Commands that only look.

use crate::patterns::Pattern;
use ws_written::{Atom, Value};

/// One item of `show`: a whole table, or the rows that an atom matches.
#[derive(Drop)]
pub enum Shown {
    Table(u32),
    Rows(Atom),
}

/// The options that choose which rows are shown: `--unknowns`, `--like WORD`, `--from K`, `--limit N`.
#[derive(Drop)]
pub struct Paging {
    pub unknowns: bool,
    pub like: Option<String>,
    pub from: Option<u32>,
    pub limit: Option<u32>,
}

/// A query: the variables of its head, and its atoms.
#[derive(Drop)]
pub struct Asked {
    pub head: Vec<String>,
    pub atoms: Vec<Atom>,
}

/// The subject of an explanation.
#[derive(Drop)]
pub enum Why {
    Fact(Pattern),
    /// `why ?U.P`: the value is an unknown.
    Unknown(Value),
}

/// `export`: one relation or all, the formats that were named (`--sqlite` with its file), and the file of `--to`.
#[derive(Drop)]
pub struct Export {
    pub relation: Option<u32>,
    pub csv: bool,
    pub sql: bool,
    pub json: bool,
    pub sqlite: Option<String>,
    pub to: Option<String>,
}

/// A command that only looks.
#[derive(Drop)]
pub enum Look {
    /// The tables to show; all tables if the list is empty.
    Show(Vec<Shown>, Paging),
    Ask {
        asked: Asked,
        unknowns: bool,
        limit: Option<u32>,
    },
    /// An explanation; `true` for `--dot`, which makes it a graph.
    Why(Why, bool),
    Questions {
        number: Option<u32>,
        like: Option<String>,
        mine: bool,
        limit: Option<u32>,
    },
    Violations {
        mapping: Option<String>,
        limit: Option<u32>,
    },
    Log {
        number: Option<u32>,
        since: Option<u32>,
        limit: Option<u32>,
    },
    Status,
    /// With the file of `--to`, as `Page` and `Dump` have it too.
    Graph(Option<String>),
    Page(Option<String>),
    Dump(Option<String>),
    Export(Export),
}

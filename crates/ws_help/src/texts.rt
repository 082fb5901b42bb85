//! The form, a short text and an example for each verb.

use ws_command::Verb;

/// The form in which the command is written.
pub fn form_of(verb: Verb) -> &'static str {
    match verb {
        Verb::Relation => "relation NAME(COLUMN, ..)",
        Verb::Mapping => "mapping NAME: ATOM, .. -> ATOM, ..",
        Verb::Adopt => "adopt MAPPING",
        Verb::Drop => "drop MAPPING",
        Verb::Insert => "insert TUPLE, ..",
        Verb::Delete => "delete TUPLE, ..",
        Verb::Replace => "replace UNKNOWN with VALUE, or replace TUPLE with TUPLE",
        Verb::Answer => "answer N CHOICE",
        Verb::Undo => "undo N, N..M, ..",
        Verb::Redo => "redo N, N..M, ..",
        Verb::Try => "try COMMAND",
        Verb::Load => "load RELATION FILE, or load RELATION --lines N",
        Verb::Fold => "fold",
        Verb::Show => "show [RELATION | ATOM] ..",
        Verb::Ask => "ask [NAME(VARIABLE, ..):] ATOM, ..",
        Verb::Why => "why TUPLE | UNKNOWN",
        Verb::Questions => "questions [N]",
        Verb::Violations => "violations [MAPPING]",
        Verb::Log => "log [N]",
        Verb::Status => "status",
        Verb::Graph => "graph",
        Verb::Page => "page",
        Verb::Export => "export [RELATION]",
        Verb::Dump => "dump",
        Verb::Help => "help [COMMAND]",
        Verb::Quit => "quit",
    }
}

/// What the command does, in a few words.
pub fn short_of(verb: Verb) -> &'static str {
    match verb {
        Verb::Relation => "declare a table",
        Verb::Mapping => "say what has to be there when something else is",
        Verb::Adopt => "repair what violates a proposed mapping, and put it in force",
        Verb::Drop => "take a mapping out of force, or a proposal away",
        Verb::Insert => "add tuples, and repair what that breaks",
        Verb::Delete => "take tuples away, and what cannot be there without them",
        Verb::Replace =>
            "fill in an unknown everywhere; or change a tuple without losing what hangs on it",
        Verb::Answer => "answer the question of update N",
        Verb::Undo => "as if these updates had never been",
        Verb::Redo => "as if these updates had never been undone",
        Verb::Try => "tell what a command would do, and change nothing",
        Verb::Load => "insert the rows of a file of comma-separated values",
        Verb::Fold => "make what stands the base, so that the file stays short",
        Verb::Show => "print tables",
        Verb::Ask => "the rows that come whatever the unknowns stand for",
        Verb::Why => "why a tuple is there, or what took it away; what drew an unknown",
        Verb::Questions => "what waits, and for which answer",
        Verb::Violations => "what is missing for the proposed mappings, and which keys clash",
        Verb::Log => "what was done, when and by whom; of update N, what it wrote",
        Verb::Status => "what is here: counts, mappings, what waits",
        Verb::Graph => "the mappings as a graph for dot",
        Verb::Page => "all of it as one page of HTML",
        Verb::Export => "tables for other programs",
        Verb::Dump => "what stands, as a session of youtopia",
        Verb::Help => "this, or more of one command",
        Verb::Quit => "leave the shell",
    }
}

/// An example of the command.
pub fn example_of(verb: Verb) -> &'static str {
    match verb {
        Verb::Relation => "relation Painting(title*, painter)",
        Verb::Mapping => "mapping hung: Hangs(t, r) -> Painting(t, p), Painter(p, c)",
        Verb::Adopt => "adopt hung",
        Verb::Drop => "drop hung",
        Verb::Insert => "insert Hangs(\"Girl\", \"Room 15\"), Painting(\"Girl\", ?)",
        Verb::Delete => "delete Insured(\"The Milkmaid\", 900)",
        Verb::Replace => "replace ?12.1 with \"Vermeer\"",
        Verb::Answer => "answer 12 2",
        Verb::Undo => "undo 12",
        Verb::Redo => "redo 12",
        Verb::Try => "try delete Painter(\"Vermeer\", \"NL\")",
        Verb::Load => "load Painting paintings.csv --empty new",
        Verb::Fold => "fold",
        Verb::Show => "show Painting(t, \"Vermeer\")",
        Verb::Ask => "ask q(painter, room): Hangs(t, room), Painting(t, painter)",
        Verb::Why => "why Painting(\"The Goldfinch\", \"Fabritius\")",
        Verb::Questions => "questions 12 --like verm",
        Verb::Violations => "violations hung",
        Verb::Log => "log 12",
        Verb::Status => "status",
        Verb::Graph => "graph --to mappings.dot",
        Verb::Page => "page --to museum.html",
        Verb::Export => "export --sql --to museum.sql",
        Verb::Dump => "dump --to museum.session",
        Verb::Help => "help insert",
        Verb::Quit => "quit",
    }
}

//! The language of sessions: its words, its statements and their checks, the session that bytes spell or their first fault, the
//! printed form, and the laws that join these. All of these are definitions, which the programs that read and print cite in their
//! contracts.
#![tactic(auto)]

mod facts;
mod inputs;
mod laws;
mod rows;
mod tokens;

pub use crate::inputs::inputs_are_statements;
pub use crate::tokens::{LexRefusal, Token, TokenKind};
pub use facts::{lines_say_tuples, tuples_are_read_again};
pub use laws::{
    bytes_are_text_first, closure_decides, every_input_has_one_answer, format_2_has_more_relations,
    nothing_else_is_read, sessions_are_read_again, spelled_sessions_are_valid,
    statements_are_read_again, statements_are_written_directly, words_are_read_again,
};
pub use rows::{
    check_faults, form_faults, lexical_faults, printed_sessions, printed_tuples, wanted_faults,
};

/// The part that is missing at the first token of a line that does not fit the form.
#[derive(Clone, Copy, Debug, PartialEq, Eq)]
pub enum Wanted {
    /// A word that begins a statement which may stand here.
    Statement,
    /// A name.
    Name,
    /// A number.
    Number,
    /// `:`
    Colon,
    /// `(`
    Open,
    /// `,` or `)`, after a term or a value.
    CommaOrClose,
    /// A name, a number or a text, in an atom.
    Term,
    /// A number, a text or a null, in a fact or after `with`.
    Value,
    /// A null.
    Null,
    /// A name or `->`, at the start of a mapping's left side.
    NameOrArrow,
    /// `,` or `->`, after an atom of the left side.
    CommaOrArrow,
    /// A name or the end of the line, at the start of a mapping's right side.
    NameOrEnd,
    /// `,` or the end of the line, after an atom of the right side or a fact of an answer.
    CommaOrEnd,
    /// The word of an operation, after a curator.
    Operation,
    /// The word `with`.
    With,
    /// The word of an answer, after its label.
    Choice,
    /// The end of the line.
    EndOfLine,
}

/// The quantities of a session that have a limit.
#[derive(Clone, Copy, Debug, PartialEq, Eq)]
pub enum Which {
    /// The columns of a relation: 1 to 8.
    Arity,
    /// The relations: 64, or 128 in format 2.
    Relations,
    /// The mappings: 64, of which updates add at most 16.
    Mappings,
    /// The distinct tuples of the base: 20,000, or 100,000 in format 2.
    Base,
    /// The updates: 1,000.
    Updates,
    /// The distinct curators: 64.
    Curators,
    /// The answers of all updates: 10,000, or 20,000 in format 2.
    Answers,
}

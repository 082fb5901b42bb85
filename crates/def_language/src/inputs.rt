//! A whole input: its lines as a list of statements, and the session that the checks make from that list.
//!
//! Reading goes line by line, and keeps a section and a session. Here an input is described as a whole: a header, statements in
//! the order of their sections, `end`, and blank lines between them. The definitions stand in `specs/Inputs.antt`. The function
//! is a law: its contract is the statement, and its body names the laws of `def_language` on single statements.
ghost use Rattle.def_language.specs.Inputs.{InputsAreStatements};

use crate::{nothing_else_is_read, statements_are_read_again};

/// Bytes spell a session exactly if four conditions hold: they are UTF-8; their lines say a header, statements in the order of
/// their sections, and `end`; each statement has a spelling in the header's format; and the checks, taken in turn, make that
/// session from them.
pub fn inputs_are_statements()
    ensures { InputsAreStatements }
{
    statements_are_read_again();
    nothing_else_is_read();
}

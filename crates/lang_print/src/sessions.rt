//! The printed form of a session.

ghost use Rattle.std.specs.Prelude.{◌≡◌, IfOk};
ghost use Rattle.def_language.specs.Lines.{Spells};
ghost use Rattle.def_language.specs.Grammar.{statement_words};
ghost use Rattle.def_language.specs.Statements.{End, Header};
ghost use Rattle.def_language.specs.Printing.{printed};
ghost use Rattle.def_language.specs.Validity.{IsSession};
ghost use Rattle.lang_session.specs.Meanings.{session_of};
ghost use Rattle.lang_print.specs.Lines.{with_line};
ghost use Rattle.lang_print.specs.Upgrades.{upgraded};

use crate::lines::{with_base, with_mappings, with_relations, with_updates};
use base_types::Memory;
use def_language::sessions_are_read_again;
use lang_schema::Page;
use lang_session::Session;
use std::alloc::Global;

fn with_header(page: Page, format: u8) -> Result<Page, Memory>
    ensures { IfOk result (λ p. p ≡ with_line page (statement_words (Header format))) }
{
    page.name(b"youtopia")?.number(format as i64)?.end_line()
}

fn with_end(page: Page) -> Result<Page, Memory>
    ensures { IfOk result (λ p. p ≡ with_line page (statement_words End)) }
{
    page.name(b"end")?.end_line()
}

// The session under the header of a format.
fn print_as(alloc: Global, format: u8, session: &Session) -> Result<Vec<u8>, Memory>
    ensures { IfOk result (λ text. text.items ≡
        printed (record (session_of session.now) { format = format })) }
{
    let schema = &session.schema;
    let header = with_header(Page::new(alloc), format)?;
    let relations = with_relations(header, schema)?;
    let mappings = with_mappings(relations, schema, session.mappings.as_slice())?;
    let base = with_base(mappings, schema, session.base.as_slice())?;
    let updates = with_updates(base, session)?;
    let whole = with_end(updates)?;
    Ok(whole.into_text())
}

/// The printed form of a session: header, relations, mappings, base, each update followed by its answers, and `end`, with a line
/// for each. If the session passes all checks, reading this text gives it back.
pub fn print_session(alloc: Global, session: &Session) -> Result<Vec<u8>, Memory>
    ensures printed { IfOk result (λ text. text.items ≡ printed (session_of session.now)) }
    ensures read_again { IsSession (session_of session.now) →
        IfOk result (λ text. Spells text.items (session_of session.now)) }
{
    sessions_are_read_again();
    print_as(alloc, session.format, session)
}

/// The printed form of the same session in format 2.
pub fn print_upgraded(alloc: Global, session: &Session) -> Result<Vec<u8>, Memory>
    ensures printed { IfOk result (λ text. text.items ≡
        printed (upgraded (session_of session.now))) }
    ensures read_again { IsSession (session_of session.now) →
        IfOk result (λ text. Spells text.items (upgraded (session_of session.now))) }
{
    sessions_are_read_again();
    print_as(alloc, 2, session)
}

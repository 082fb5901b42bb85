//! The words of an update's operation.

ghost use Rattle.std.specs.Prelude.{◌≡◌, List, map, IfOk, slice_index_or};
ghost use Rattle.base_types.specs.Meanings.{operation_of};
ghost use Rattle.def_language.specs.Statements.{AddMapping};
ghost use Rattle.def_language.specs.Grammar.{operation_words};
ghost use Rattle.def_language.specs.Printing.{no_mapping, written_mapping, written_operation};
ghost use Rattle.def_language.specs.Sessions.{RelationSchema};
ghost use Rattle.lang_schema.specs.Meanings.{session_mapping_of};
ghost use Rattle.lang_schema.specs.Pages.{with_words};
ghost use Rattle.lang_session.specs.Meanings.{session_of};

use crate::worded::Worded;
use base_types::{MappingList, Memory, Operation, Value};
use lang_schema::{Page, Schema, with_mapping};
use lang_session::Session;

// Adds the signs of a mapping without its parts, for an update whose mapping does not exist. No valid session has such an update.
fn with_no_mapping(page: Page) -> Result<Page, Memory>
    ensures { (relations : List RelationSchema) →
        IfOk result (λ p. p ≡ with_words page
        (operation_words (AddMapping (written_mapping relations no_mapping)))) }
{
    page.name(b"mapping")?.name(b"")?.colon()?.arrow()
}

// Adds the mapping of a number.
fn with_added_mapping(
    page: Page,
    schema: &Schema,
    mappings: &MappingList,
    number: u16,
) -> Result<Page, Memory>
    ensures { IfOk result (λ p. p ≡ with_words page
        (operation_words (AddMapping (written_mapping schema.now
        (slice_index_or (map session_mapping_of mappings.now.items) number no_mapping))))) }
{
    match mappings.get(number as usize) {
        Some(mapping) => with_mapping(page, schema, mapping),
        None => with_no_mapping(page),
    }
}

/// Adds an operation as a session spells it after the curator.
pub(crate) fn with_operation(
    page: Page,
    session: &Session,
    operation: &Operation,
) -> Result<Page, Memory>
    ensures { IfOk result (λ p. p ≡ with_words page
        (operation_words (written_operation (session_of session.now)
        (operation_of operation.now)))) }
{
    let schema = &session.schema;
    match operation {
        Operation::Insert(tuple) => tuple.write(page.name(b"insert")?, schema),
        Operation::Delete(tuple) => tuple.write(page.name(b"delete")?, schema),
        Operation::Replace(null, value) => page
            .name(b"replace")?
            .value(&Value::Null(*null))?
            .name(b"with")?
            .value(value),
        Operation::Enact(number) => with_added_mapping(page, schema, &session.mappings, *number),
    }
}

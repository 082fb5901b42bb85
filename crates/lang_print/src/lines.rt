//! The lines of a session, part by part.

ghost use Rattle.std.specs.Prelude.{◌≡◌, ◌<◌, [], ◌∷◌, Some, length, map, flat_map, IfOk, slice_get};
ghost use Rattle.base_types.specs.Meanings.{choice_of, fact_of};
ghost use Rattle.def_language.specs.Grammar.{statement_words};
ghost use Rattle.def_language.specs.Printing.{update_statements};
ghost use Rattle.def_language.specs.Sessions.{RelationSchema};
ghost use Rattle.lang_schema.specs.Meanings.{session_mapping_of};
ghost use Rattle.lang_session.specs.Meanings.{session_of, update_of};
ghost use Rattle.lang_print.specs.Lines.{answer_statements, base_statements, mapping_statements, relation_statement, with_line, with_lines};

use crate::choices::with_choice;
use crate::operations::with_operation;
use crate::worded::Worded;
use base_types::{Choice, Mapping, Memory, Name, Tuple};
use lang_schema::{Page, Schema, with_mapping};
use lang_session::{Session, SessionUpdate};

// Adds the relation of a number.
fn with_relation(page: Page, schema: &Schema, number: u16) -> Result<Page, Memory>
    requires { number < length schema.now }
    ensures { (r : RelationSchema) → slice_get schema.now number ≡ Some r →
        IfOk result (λ p. p ≡ with_line page (statement_words (relation_statement r))) }
{
    let Some(arity) = schema.arity(number) else {
        unreachable!()
    };
    page.name(b"relation")?
        .name(schema.name(number))?
        .number(arity as i64)?
        .end_line()
}

/// Adds the relations.
pub(crate) fn with_relations(mut page: Page, schema: &Schema) -> Result<Page, Memory>
    ensures { IfOk result (λ p. p ≡ with_lines statement_words page
        (map relation_statement schema.now)) }
{
    for number in 0..schema.len() {
        page = with_relation(page, schema, number)?;
    }
    Ok(page)
}

// Adds a mapping, unless an update adds it.
fn with_initial(page: Page, schema: &Schema, mapping: &Mapping) -> Result<Page, Memory>
    ensures { IfOk result (λ p. p ≡ with_lines statement_words page
        (mapping_statements schema.now (session_mapping_of mapping.now ∷ []))) }
{
    if mapping.since == 0 {
        return with_mapping(page, schema, mapping)?.end_line();
    }
    Ok(page)
}

/// Adds the mappings that no update adds.
#[tactic(auto, using(crate::proofs::Onward::filtered_more))]
pub(crate) fn with_mappings(
    mut page: Page,
    schema: &Schema,
    mappings: &[Mapping],
) -> Result<Page, Memory>
    ensures { IfOk result (λ p. p ≡ with_lines statement_words page
        (mapping_statements schema.now (map session_mapping_of mappings.now))) }
{
    for mapping in mappings {
        page = with_initial(page, schema, mapping)?;
    }
    Ok(page)
}

/// Adds the tuples of the base.
#[tactic(auto, using(crate::proofs::Onward::mapped_more))]
pub(crate) fn with_base(mut page: Page, schema: &Schema, tuples: &[Tuple]) -> Result<Page, Memory>
    ensures { IfOk result (λ p. p ≡ with_lines statement_words page
        (base_statements schema.now (map fact_of tuples.now))) }
{
    for tuple in tuples {
        page = tuple.write(page.name(b"base")?, schema)?.end_line()?;
    }
    Ok(page)
}

// Adds the answers to the update of a label.
#[tactic(auto, using(crate::proofs::Onward::mapped_more))]
fn with_answers(
    mut page: Page,
    schema: &Schema,
    label: &Name,
    answers: &[Choice],
) -> Result<Page, Memory>
    ensures { IfOk result (λ p. p ≡ with_lines statement_words page
        (answer_statements schema.now label.now.items (map choice_of answers.now))) }
{
    for answer in answers {
        let named = page.name(b"answer")?.name(label.as_slice())?;
        page = with_choice(named, schema, answer)?.end_line()?;
    }
    Ok(page)
}

// Adds an update and its answers.
fn with_update(page: Page, session: &Session, update: &SessionUpdate) -> Result<Page, Memory>
    ensures { IfOk result (λ p. p ≡ with_lines statement_words page
        (update_statements (session_of session.now) (update_of update.now))) }
{
    let label = &update.update.label;
    let named = page
        .name(b"update")?
        .name(label.as_slice())?
        .name(update.update.curator.as_slice())?;
    let told = with_operation(named, session, &update.update.operation)?.end_line()?;
    with_answers(told, &session.schema, label, update.answers.as_slice())
}

/// Adds the updates, each with its answers.
#[tactic(auto, using(crate::proofs::Onward::pieces_more))]
pub(crate) fn with_updates(mut page: Page, session: &Session) -> Result<Page, Memory>
    ensures { IfOk result (λ p. p ≡ with_lines statement_words page
        (flat_map (update_statements (session_of session.now)) (session_of session.now).updates)) }
{
    for update in session.updates.as_slice() {
        page = with_update(page, session, update)?;
    }
    Ok(page)
}

//! The lines of the output for the answers of calls.
use crate::events::{Refusal, Stands};
use base_types::Memory;
use chase_question::Question;
use core_engine::Core;
use core_entries::{Entry, Standing};
use lang_report::{question_lines, result_text};
use lang_schema::{Schema, print_tuple};
use lang_session::Session;
use std::alloc::Global;
use try_cases::{CaseRefusal, with_entries, with_line};

/// Adds the line of a refusal.
pub fn with_refusal(
    alloc: Global,
    text: Vec<u8>,
    refusal: Refusal,
) -> Result<Vec<u8>, CaseRefusal> {
    let line = format!(in alloc; "refused {refusal}")?;
    with_line(text, line.as_str())
}

/// Adds the line of the last entry.
pub fn with_last(
    alloc: Global,
    text: Vec<u8>,
    schema: &Schema,
    history: &[Entry],
) -> Result<Vec<u8>, CaseRefusal> {
    let place = history.len().saturating_sub(1);
    with_entries(alloc, text, schema, history, place)
}

/// Adds the standing of an update.
pub fn with_standing(
    alloc: Global,
    text: Vec<u8>,
    standing: Option<Standing>,
) -> Result<Vec<u8>, CaseRefusal> {
    let Some(standing) = standing else {
        return with_line(text, "stands nowhere");
    };
    let stands = Stands(standing);
    let line = format!(in alloc; "stands {stands}")?;
    with_line(text, line.as_str())
}

/// Adds a question, or that there is none.
pub fn with_question(
    alloc: Global,
    mut text: Vec<u8>,
    session: &Session,
    question: Option<&Question>,
) -> Result<Vec<u8>, CaseRefusal> {
    let Some(question) = question else {
        return with_line(text, "asks nothing");
    };
    text.extend_from_slice(question_lines(alloc, session, question)?.as_slice())?;
    Ok(text)
}

/// Adds the numbers of updates and of committed updates, and whether anything is left to do.
pub fn with_counts(alloc: Global, text: Vec<u8>, core: &Core<'_>) -> Result<Vec<u8>, CaseRefusal> {
    let (count, committed) = (core.count(), core.committed());
    let rest = if core.is_quiet() { "quiet" } else { "open" };
    let line = format!(in alloc; "committed {committed} of {count}, {rest}")?;
    with_line(text, line.as_str())
}

/// Adds the tuples of the repository that the committed updates left, each as a line.
pub fn with_repository(
    alloc: Global,
    mut text: Vec<u8>,
    schema: &Schema,
    core: &Core<'_>,
) -> Result<Vec<u8>, CaseRefusal> {
    let tuples = core.repository(alloc)?;
    for tuple in tuples.as_slice() {
        text.extend_from_slice(print_tuple(alloc, schema, tuple, false)?.as_slice())?;
        text.push(b'\n')?;
    }
    Ok(text)
}

/// Adds the result of the core.
pub fn with_result(
    alloc: Global,
    mut text: Vec<u8>,
    session: &Session,
    core: &Core<'_>,
) -> Result<Vec<u8>, CaseRefusal> {
    text.extend_from_slice(result_of(alloc, session, core)?.as_slice())?;
    Ok(text)
}

// The result of the core, as text.
fn result_of(alloc: Global, session: &Session, core: &Core<'_>) -> Result<Vec<u8>, Memory> {
    let told = core.result(alloc)?;
    result_text(alloc, session, &told)
}

//! The lines of a question, and of the update that stopped at it.

ghost use Rattle.std.specs.Prelude.{◌≡◌, ◌∷◌, codes, map, IfOk};
ghost use Rattle.base_types.specs.Meanings.{fact_of};
ghost use Rattle.std.specs.Option.{option_map};
ghost use Rattle.def_language.specs.Words as word_of;
ghost use Rattle.chase_question.specs.Inquiries.{inquiry_of};
ghost use Rattle.lang_session.specs.Meanings.{session_of};
ghost use Rattle.lang_print.specs.Lines.{with_lines};
ghost use Rattle.chase_update.specs.Results.{lack_of, stop_of};
ghost use Rattle.lang_report.specs.Results.{candidate_lines, lack_name, question_lines, stop_lines, stop_lines_in, negative_lines, tuple_words};
ghost use Rattle.lang_report.specs.Pages.{HasLines};

use crate::named::{add_update, mapping_name};
use base_types::{Memory, Tuple};
use chase_question::Question;
use chase_update::{Lack, Stop};
use lang_schema::{Page, Schema};
use lang_session::Session;

#[tactic(auto, using(lang_print::proofs::Onward::mapped_more))]
fn with_candidates(mut page: Page, schema: &Schema, tuples: &[Tuple]) -> Result<Page, Memory>
    ensures { IfOk result (HasLines page (candidate_lines schema.now (map fact_of tuples.now))) }
{
    for tuple in tuples {
        page.add_name(b"candidate")?;
        page.add_tuple(schema, tuple)?;
        page.add_line_feed()?;
    }
    Ok(page)
}

// Adds a positive question, with the name of its mapping.
fn with_positive(
    page: Page,
    schema: &Schema,
    called: &[u8],
    tuple: &Tuple,
    candidates: &[Tuple],
) -> Result<Page, Memory>
    ensures { IfOk result (λ p. p ≡ with_lines (λ words. words) page
        ((word_of.name (codes "question") ∷ word_of.name (codes "positive") ∷ word_of.name
        called.now
        ∷ tuple_words schema.now (fact_of tuple.now))
        ∷ candidate_lines schema.now (map fact_of candidates.now))) }
{
    let named = page.name(b"question")?.name(b"positive")?.name(called)?;
    let told = named.tuple(schema, tuple)?.end_line()?;
    with_candidates(told, schema, candidates)
}

// Adds a negative question, with the name of its mapping.
fn with_negative(
    page: Page,
    schema: &Schema,
    called: &[u8],
    tuples: &[Tuple],
) -> Result<Page, Memory>
    ensures { IfOk result (HasLines page
        (negative_lines schema.now called.now (map fact_of tuples.now))) }
{
    let told = page
        .name(b"question")?
        .name(b"negative")?
        .name(called)?
        .end_line()?;
    with_candidates(told, schema, tuples)
}

/// Adds a question, and then its candidates, or the tuples of which some must be deleted.
pub(crate) fn with_question(
    page: Page,
    session: &Session,
    question: &Question,
) -> Result<Page, Memory>
    ensures { IfOk result (HasLines page
        (question_lines (session_of session.now) (inquiry_of question.now))) }
{
    let schema = &session.schema;
    match question {
        Question::Positive {
            mapping,
            tuple,
            candidates,
        } => {
            let called = mapping_name(&session.mappings, *mapping);
            with_positive(page, schema, called, tuple, candidates.as_slice())
        }
        Question::Negative { mapping, tuples } => {
            let called = mapping_name(&session.mappings, *mapping);
            with_negative(page, schema, called, tuples.as_slice())
        }
    }
}

fn lack_name(lack: Lack) -> &'static [u8]
    ensures { result.now ≡ lack_name (lack_of lack) }
{
    match lack {
        Lack::Missing => b"missing",
        Lack::Misfit => b"misfit",
    }
}

/// Adds the update that stopped, and its question.
pub(crate) fn with_stop(page: Page, session: &Session, stop: &Stop) -> Result<Page, Memory>
    ensures { IfOk result (HasLines page (stop_lines (session_of session.now) (stop_of stop.now))) }
{
    let mut stuck = page.name(b"stuck")?;
    add_update(&mut stuck, &session.updates, stop.update as usize)?;
    let told = stuck.name(lack_name(stop.lack))?.end_line()?;
    with_question(told, session, &stop.question)
}

/// Adds the stop, if there is one.
pub(crate) fn with_stop_in(
    page: Page,
    session: &Session,
    stop: &Option<Stop>,
) -> Result<Page, Memory>
    ensures { IfOk result (HasLines page
        (stop_lines_in (session_of session.now) (option_map stop_of stop.now))) }
{
    match stop {
        None => Ok(page),
        Some(stopped) => with_stop(page, session, stopped),
    }
}

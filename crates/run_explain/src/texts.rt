//! The text of an explanation: a line of JSON for each reason.
ghost use Rattle.std.specs.Prelude.{◌≡◌, ◌++◌, false, map, IfOk};
ghost use Rattle.base_types.specs.Meanings.{fact_of};
ghost use Rattle.def_language.specs.Printing.{name_of};
ghost use Rattle.def_language.specs.Sessions.{mapping_names};
ghost use Rattle.base_json.specs.Lines.{with_json, with_all};
ghost use Rattle.lang_session.specs.Meanings.{session_of};
ghost use Rattle.run_explain.specs.ReasonMeanings.{reason_of, reasons_in};
ghost use Rattle.run_explain.specs.Texts.{explanation_text as explanation_text_def, fact_json, facts_json, generated_json, inserted_json, mappings_of, reason_json, reason_line, rewritten_json, rooted_json};

use crate::{Explanation, How, Reason};
use base_json::Line;
use base_types::{MappingList, Memory, Tuple};
use lang_schema::{Schema, print_tuple};
use lang_session::Session;
use std::alloc::Global;

/// The text of an explanation: a line for each reason, facts by their outer names.
pub fn explanation_text(
    alloc: Global,
    session: &Session,
    explanation: &Explanation,
) -> Result<Vec<u8>, Memory>
    ensures text { IfOk result (λ text. text.items ≡
        explanation_text_def (session_of session.now) (reasons_in explanation.now)) }
{
    let mut text = Vec::new(alloc);
    for reason in explanation.as_slice() {
        text = with_line(alloc, text, session, reason)?;
    }
    Ok(text)
}

// The text with the line of one more reason.
fn with_line(
    alloc: Global,
    text: Vec<u8>,
    session: &Session,
    reason: &Reason,
) -> Result<Vec<u8>, Memory>
    ensures line { IfOk result (λ more. more.items ≡
        text.items ++ reason_line (session_of session.now) (reason_of reason.now)) }
{
    let mut more = with_reason(alloc, Line::after(text), session, reason)?.into_text();
    more.push(b'\n')?;
    Ok(more)
}

// The object of a reason.
fn with_reason(
    alloc: Global,
    line: Line,
    session: &Session,
    reason: &Reason,
) -> Result<Line, Memory>
    ensures json { IfOk result (λ l. l ≡
        with_json line (reason_json (session_of session.now) (reason_of reason.now))) }
{
    let schema = &session.schema;
    let tuple = print_tuple(alloc, schema, &reason.tuple, false)?;
    match &reason.how {
        How::Base => with_root(line, &tuple),
        How::Inserted { update, step } => with_insertion(line, &tuple, *update, *step),
        How::Generated {
            update,
            step,
            mapping,
            image,
        } => {
            let made = Made {
                update: *update,
                step: *step,
                mapping: mapping_name(&session.mappings, *mapping),
                tuple: &tuple,
            };
            with_generation(alloc, line, schema, made, image.as_slice())
        }
        How::Rewritten { update, step, from } => {
            let from = print_tuple(alloc, schema, from, false)?;
            with_rewriting(line, &from, &tuple, *update, *step)
        }
    }
}

// The name of the mapping of a number; empty if there is none.
fn mapping_name(mappings: &MappingList, number: u16) -> &[u8]
    ensures name { result.now ≡ name_of (mapping_names (mappings_of mappings.now)) number }
{
    match mappings.get(number as usize) {
        Some(mapping) => mapping.name.as_slice(),
        None => &[],
    }
}

fn with_root(line: Line, tuple: &[u8]) -> Result<Line, Memory>
    ensures json { IfOk result (λ l. l ≡ with_json line (rooted_json tuple.now)) }
{
    line.begin_object()?
        .key(b"how")?
        .string(b"base")?
        .key(b"tuple")?
        .string(tuple)?
        .end_object()
}

fn with_insertion(line: Line, tuple: &[u8], update: u32, step: u32) -> Result<Line, Memory>
    ensures json { IfOk result (λ l. l ≡ with_json line (inserted_json update step tuple.now)) }
{
    line.begin_object()?
        .key(b"how")?
        .string(b"inserted")?
        .key(b"step")?
        .number(u64::from(step))?
        .key(b"tuple")?
        .string(tuple)?
        .key(b"update")?
        .number(u64::from(update))?
        .end_object()
}

fn with_rewriting(
    line: Line,
    from: &[u8],
    tuple: &[u8],
    update: u32,
    step: u32,
) -> Result<Line, Memory>
    ensures json { IfOk result (λ l.
        l ≡ with_json line (rewritten_json update step from.now tuple.now)) }
{
    line.begin_object()?
        .key(b"from")?
        .string(from)?
        .key(b"how")?
        .string(b"rewritten")?
        .key(b"step")?
        .number(u64::from(step))?
        .key(b"tuple")?
        .string(tuple)?
        .key(b"update")?
        .number(u64::from(update))?
        .end_object()
}

// A generated tuple, without the image that it was generated for.
#[derive(Clone, Copy)]
struct Made<'a> {
    update: u32,
    step: u32,
    mapping: &'a [u8],
    tuple: &'a [u8],
}

fn with_generation(
    alloc: Global,
    line: Line,
    schema: &Schema,
    made: Made<'_>,
    image: &[Tuple],
) -> Result<Line, Memory>
    ensures json { IfOk result (λ l. l ≡ with_json line
        (generated_json made.entry.update made.entry.step made.entry.mapping.now
        (facts_json schema.now (map fact_of image.now)) made.entry.tuple.now)) }
{
    let line = line
        .begin_object()?
        .key(b"how")?
        .string(b"generated")?
        .key(b"image")?;
    with_facts(alloc, line, schema, image)?
        .key(b"mapping")?
        .string(made.mapping)?
        .key(b"step")?
        .number(u64::from(made.step))?
        .key(b"tuple")?
        .string(made.tuple)?
        .key(b"update")?
        .number(u64::from(made.update))?
        .end_object()
}

// The list of the tuples.
#[tactic(auto, using(base_json::proofs::Adding::listed))]
fn with_facts(alloc: Global, line: Line, schema: &Schema, tuples: &[Tuple]) -> Result<Line, Memory>
    ensures json { IfOk result (λ l. l ≡
        with_json line (facts_json schema.now (map fact_of tuples.now))) }
{
    with_each_fact(alloc, line.begin_array()?, schema, tuples)?.end_array()
}

#[tactic(auto, using(base_json::proofs::Adding::all_more))]
fn with_each_fact(
    alloc: Global,
    mut line: Line,
    schema: &Schema,
    tuples: &[Tuple],
) -> Result<Line, Memory>
    ensures json { IfOk result (λ l. l ≡
        with_all line (map (fact_json schema.now) (map fact_of tuples.now))) }
{
    for tuple in tuples {
        let text = print_tuple(alloc, schema, tuple, false)?;
        line = line.string(text.as_slice())?;
    }
    Ok(line)
}

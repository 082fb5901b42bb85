//! `why ?U.P`: what drew an unknown, and which tuples have it.

use base_types::{Memory, Tuple};
use std::alloc::Global;
use ws_fault::{Refusal, Status as Code};
use ws_json::Object;
use ws_lines::Source;
use ws_names::Cause;
use ws_print::{Lines, Text, add_unknown};
use ws_question::{fact_text, inner_text};
use ws_reply::{Context, Reply, object_of, seen_object, seen_text, text_items};
use ws_space::{Space, variable_said};
use ws_state::{Held, Status};
use ws_written::{Unknown, Value as Said};

/// What drew the unknown, and the tuples that have it. It is refused if the unknown is not there.
pub fn why_unknown(
    alloc: Global,
    space: &Space,
    context: &Context<'_>,
    unknown: &Said,
) -> Result<Reply, Refusal> {
    let unknown = space.unknown(alloc, unknown)?;
    let mut name = Text::new(alloc);
    add_unknown(&mut name, unknown);
    let name = name.done()?;
    let texts = texts_with(alloc, space, unknown)?;
    let words = words_of(alloc, space, name.as_str(), unknown)?;
    Ok(reply(alloc, context, name.as_str(), words, texts.as_slice())?)
}

// The tuples that have the unknown, in order, in the form that commands take.
fn texts_with(alloc: Global, space: &Space, unknown: Unknown) -> Result<Vec<String>, Memory> {
    let Some(value) = space.within_unknown(unknown) else {
        return Ok(Vec::new(alloc));
    };
    let mut texts = Lines::new(alloc);
    for number in 0..space.relations.len() {
        let rows = space.rows(alloc, u32::try_from(number).unwrap_or(u32::MAX))?;
        for tuple in rows.iter() {
            if tuple.values.as_slice().contains(&value) {
                texts.made(inner_text(alloc, space, tuple));
            }
        }
    }
    Ok(texts.done()?)
}

fn words_of(alloc: Global, space: &Space, name: &str, unknown: Unknown) -> Result<String, Memory> {
    let number = unknown.update;
    let stands = space.state.status(number) == Some(Status::Stands);
    let (Some(held), true) = (held_of(space, number), stands) else {
        return Ok(format!(in alloc; "{name} is in the base")?);
    };
    let curator = space.curator_of(number);
    match cause_of(held, unknown.place) {
        Some(cause) => caused(alloc, space, name, cause, number),
        None => Ok(format!(in alloc; "{name} is new in {number} by {curator}")?),
    }
}

fn held_of(space: &Space, number: u32) -> Option<&Held> {
    for held in space.state.held() {
        if held.update.number == number {
            return Some(held);
        }
    }
    None
}

fn cause_of(held: &Held, place: u32) -> Option<&Cause> {
    for other in held.places.as_slice() {
        if other.number == place {
            return Some(&other.cause);
        }
    }
    None
}

// `?U.P is VARIABLE of MAPPING in N by C, since IMAGE`.
fn caused(
    alloc: Global,
    space: &Space,
    name: &str,
    cause: &Cause,
    number: u32,
) -> Result<String, Memory> {
    let curator = space.curator_of(number);
    let Some(mapping) = space.source_mapping(cause.source) else {
        return Ok(format!(in alloc; "{name} is new in {number} by {curator}")?);
    };
    let variable = variable_said(alloc, space.state.mappings(), cause)?;
    let by = space.mapping_name(mapping);
    let mut words = Text::new(alloc);
    write!(
        words,
        "{name} is {variable} of {by} in {number} by {curator}"
    );
    if let Source::By(_) = cause.source {
        add_image(alloc, space, &mut words, cause.image.as_slice());
    }
    Ok(words.done()?)
}

fn add_image(alloc: Global, space: &Space, words: &mut Text, image: &[Tuple]) {
    for (place, tuple) in image.iter().enumerate() {
        words.push_str(if place == 0 { ", since " } else { ", " });
        words.made(fact_text(alloc, space, tuple));
    }
}

fn reply(
    alloc: Global,
    context: &Context<'_>,
    name: &str,
    words: String,
    texts: &[String],
) -> Result<Reply, Memory> {
    if context.is_json() {
        let object = object(alloc, name, words.as_str(), texts);
        return seen_object(alloc, Code::Done, object);
    }
    let mut lines = Lines::new(alloc);
    lines.push(words);
    for text in texts {
        lines.made(format!(in alloc; "  stands in {text}"));
    }
    Ok(seen_text(Code::Done, lines.done()?))
}

fn object(alloc: Global, name: &str, words: &str, texts: &[String]) -> Object {
    let mut object = object_of(alloc, "unknown");
    object.text("unknown", name);
    object.text("words", words);
    object.items("tuples", text_items(alloc, texts));
    object
}

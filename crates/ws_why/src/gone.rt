//! What took away a tuple that is not there.

use crate::steps::{Made, rewritten};
use base_types::{Memory, Tuple};
use run_note::Way;
use std::alloc::Global;
use ws_fault::{Fault, Refusal, Status};
use ws_json::Object;
use ws_lines::Source;
use ws_print::{Lines, Text, add_fact};
use ws_question::{inner_text, near_texts};
use ws_reply::{Context, Reply, object_of, refused, seen_object, seen_text};
use ws_run::{Step, Taking};
use ws_space::Space;
use ws_written::Fact;

// The update that took the tuple away, how, and the reply in words.
#[derive(Drop)]
struct Told {
    number: u32,
    how: &'static str,
    words: String,
}

/// What took the tuple away last. It is refused if no update did.
pub(crate) fn gone(
    alloc: Global,
    space: &Space,
    context: &Context<'_>,
    fact: &Fact,
) -> Result<Reply, Refusal> {
    let mut said = Text::new(alloc);
    add_fact(&mut said, space.relations.as_slice(), fact);
    let said = said.done()?;
    let tuple = space.tuple(alloc, fact)?;
    match last_taken(alloc, space, said.as_str(), &tuple)? {
        Some(told) => Ok(reply(alloc, space, context, said.as_str(), told)?),
        None => Err(Refusal::Fault(never(alloc, space, fact, said.as_str())?)),
    }
}

// The fault that no update took the tuple away.
fn never(alloc: Global, space: &Space, fact: &Fact, said: &str) -> Result<Fault, Memory> {
    let words = format!(in alloc; "{said} is not there")?;
    let hint = near_hint(alloc, space, fact)?;
    Ok(refused(alloc, words, hint))
}

fn near_hint(alloc: Global, space: &Space, fact: &Fact) -> Result<Option<String>, Memory> {
    let near = near_texts(alloc, space, fact)?;
    if near.is_empty() {
        return Ok(None);
    }
    let mut hint = Text::new(alloc);
    for text in near.iter() {
        hint.push_str(if hint.is_empty() {
            "there is "
        } else {
            "; there is "
        });
        hint.push_str(text.as_str());
    }
    let hint = hint.done()?;
    Ok(Some(hint))
}

// The last step that took the tuple away; `tuple` is by names.
fn last_taken(
    alloc: Global,
    space: &Space,
    said: &str,
    tuple: &Tuple,
) -> Result<Option<Told>, Memory> {
    for standing in space.state.order().as_slice().iter().rev() {
        for step in standing.steps.as_slice().iter().rev() {
            if let Some(taken) = taken_by(alloc, space, step, tuple)? {
                return Ok(Some(told_of(alloc, space, said, Made { standing, step }, taken)?));
            }
        }
    }
    Ok(None)
}

// The tuple within that the step took away, if it is `tuple` by names.
fn taken_by<'a>(
    alloc: Global,
    space: &Space,
    step: &'a Step,
    tuple: &Tuple,
) -> Result<Option<&'a Tuple>, Memory> {
    for taken in step.note.deleted.as_slice() {
        if taken.relation == tuple.relation && space.state.names().tuple(alloc, taken)? == *tuple {
            return Ok(Some(taken));
        }
    }
    Ok(None)
}

fn told_of(
    alloc: Global,
    space: &Space,
    said: &str,
    made: Made<'_>,
    taken: &Tuple,
) -> Result<Told, Memory> {
    let number = space.number_at(made.standing.held).unwrap_or(0);
    let (how, what) = taking_words(alloc, space, made, taken)?;
    let curator = space.curator_of(number);
    let line = space.update_text(alloc, number)?;
    let words = format!(in alloc; "{said} {what} in {number} by {curator}: {line}")?;
    Ok(Told { number, how, words })
}

fn taking_words(
    alloc: Global,
    space: &Space,
    made: Made<'_>,
    taken: &Tuple,
) -> Result<(&'static str, String), Memory> {
    match made.step.taking {
        Taking::Named => Ok(("deleted", String::from_str(alloc, "was deleted")?)),
        Taking::Needed(source) => {
            let name = source_name(space, source);
            Ok(("needed", format!(in alloc; "went by {name}")?))
        }
        Taking::Chosen(source) => {
            let name = source_name(space, source);
            Ok(("chosen", format!(in alloc; "was chosen to go by {name}")?))
        }
        Taking::Became => {
            let other = became(alloc, space, &made.step.note.way, taken)?;
            Ok(("became", format!(in alloc; "became {other}")?))
        }
    }
}

fn source_name(space: &Space, source: Source) -> &str {
    space.mapping_name(space.source_mapping(source).unwrap_or(u16::MAX))
}

// What the tuple became, in the form that commands take.
fn became(alloc: Global, space: &Space, way: &Way, taken: &Tuple) -> Result<String, Memory> {
    match way {
        Way::Rewrites(rewriting) => {
            inner_text(alloc, space, &rewritten(alloc, rewriting, taken)?)
        }
        _ => inner_text(alloc, space, taken),
    }
}

fn reply(
    alloc: Global,
    space: &Space,
    context: &Context<'_>,
    said: &str,
    told: Told,
) -> Result<Reply, Memory> {
    if context.is_json() {
        return seen_object(alloc, Status::Nothing, object(alloc, space, said, &told));
    }
    let mut lines = Lines::new(alloc);
    lines.push(told.words);
    Ok(seen_text(Status::Nothing, lines.done()?))
}

fn object(alloc: Global, space: &Space, said: &str, told: &Told) -> Object {
    let mut object = object_of(alloc, "gone");
    object.text("tuple", said);
    object.text("how", told.how);
    object.number("number", i64::from(told.number));
    object.text("curator", space.curator_of(told.number));
    object.text("words", told.words.as_str());
    object
}

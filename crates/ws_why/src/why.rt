//! `why F`: why a tuple is there, or what took it away.

use crate::gone::gone;
use crate::reasons::{How, Reason, reasons_for};
use crate::why_dot::dot_lines;
use base_types::{Memory, Tuple};
use std::alloc::Global;
use ws_command::Pattern;
use ws_fault::{Fault, Refusal, Status};
use ws_json::{Items, Object};
use ws_print::{Lines, Text, add_pattern};
use ws_question::{count_text, fact_text, inner_text};
use ws_reply::{Context, Reply, lines_text, number_of, object_of, refused, seen_object, seen_text};
use ws_space::{Space, plain_fact};
use ws_written::Fact;

// The greatest number of fitting tuples that are listed.
const TOLD: usize = 3;

/// Why the tuple that fits is there, as a graph if `dot` asks for it, or what took it away. It is refused if several tuples fit,
/// or if there never was one.
pub fn why_fact(
    alloc: Global,
    space: &Space,
    context: &Context<'_>,
    pattern: &Pattern,
    dot: bool,
) -> Result<Reply, Refusal> {
    let fact = one_fact(alloc, space, pattern)?;
    match space.within(alloc, &fact)? {
        Some(tuple) if space.has(&tuple) => { Ok(explained(alloc, space, context, &tuple, dot)?) }
        _ => gone(alloc, space, context, &fact),
    }
}

// The explanation of a tuple that is there.
fn explained(
    alloc: Global,
    space: &Space,
    context: &Context<'_>,
    tuple: &Tuple,
    dot: bool,
) -> Result<Reply, Memory> {
    let reasons = reasons_for(alloc, space, tuple)?;
    if dot {
        return dot_reply(alloc, space, context, reasons.as_slice());
    }
    why_reply(alloc, space, context, reasons.as_slice())
}

// The tuple that is meant. If the pattern has a `_`, it is the only one that fits.
fn one_fact(alloc: Global, space: &Space, pattern: &Pattern) -> Result<Fact, Refusal> {
    if let Some(fact) = plain_fact(alloc, pattern)? {
        return Ok(fact);
    }
    refuse_lost(alloc, space, pattern)?;
    let found = space.matching(alloc, pattern)?;
    match found.as_slice() {
        [tuple] => Ok(space.shown(alloc, tuple)?),
        others => Err(Refusal::Fault(not_one(alloc, space, pattern, others)?)),
    }
}

// The fault that not exactly one tuple fits. It lists the first that do.
fn not_one(
    alloc: Global,
    space: &Space,
    pattern: &Pattern,
    found: &[Tuple],
) -> Result<Fault, Memory> {
    let mut said = Text::new(alloc);
    add_pattern(&mut said, space.relations.as_slice(), pattern);
    let said = said.done()?;
    let count = count_text(alloc, found.len(), "tuple")?;
    let words = format!(in alloc; "{said} fits {count}")?;
    let more = first_texts(alloc, space, found)?;
    let mut fault = refused(alloc, words, None);
    fault.more = more;
    Ok(fault)
}

fn first_texts(alloc: Global, space: &Space, tuples: &[Tuple]) -> Result<Vec<String>, Memory> {
    let mut texts = Lines::new(alloc);
    for tuple in tuples.iter().take(TOLD) {
        texts.made(inner_text(alloc, space, tuple));
    }
    Ok(texts.done()?)
}

// Refuses a pattern with an unknown that is not there.
fn refuse_lost(alloc: Global, space: &Space, pattern: &Pattern) -> Result<(), Refusal> {
    for value in pattern.values.iter() {
        if let Some(known) = value {
            space.check(alloc, known)?;
        }
    }
    Ok(())
}

fn dot_reply(
    alloc: Global,
    space: &Space,
    context: &Context<'_>,
    reasons: &[Reason],
) -> Result<Reply, Memory> {
    let lines = dot_lines(alloc, space, reasons)?;
    if context.is_json() {
        return seen_object(alloc, Status::Done, dot_object(alloc, lines.as_slice())?);
    }
    Ok(seen_text(Status::Done, lines))
}

fn dot_object(alloc: Global, lines: &[String]) -> Result<Object, Memory> {
    let text = lines_text(alloc, lines)?;
    let mut object = object_of(alloc, "dot");
    object.text("text", text.as_str());
    Ok(object)
}

fn why_reply(
    alloc: Global,
    space: &Space,
    context: &Context<'_>,
    reasons: &[Reason],
) -> Result<Reply, Memory> {
    if context.is_json() {
        return seen_object(alloc, Status::Done, why_object(alloc, space, reasons));
    }
    let mut lines = Lines::new(alloc);
    for reason in reasons {
        lines.made(line(alloc, space, reason));
    }
    Ok(seen_text(Status::Done, lines.done()?))
}

fn why_object(alloc: Global, space: &Space, reasons: &[Reason]) -> Object {
    let mut object = object_of(alloc, "why");
    object.items("reasons", reason_items(alloc, space, reasons));
    object
}

fn reason_items(alloc: Global, space: &Space, reasons: &[Reason]) -> Items {
    let mut items = Items::new(alloc);
    for reason in reasons {
        items.object(reason_object(alloc, space, reason));
    }
    items
}

// The reason as a line, indented by two more blanks for each level.
fn line(alloc: Global, space: &Space, reason: &Reason) -> Result<String, Memory> {
    let mut line = Text::new(alloc);
    add_line(alloc, &mut line, space, reason);
    Ok(line.done()?)
}

fn add_line(alloc: Global, line: &mut Text, space: &Space, reason: &Reason) {
    for _ in 0..reason.depth {
        line.push_str("  ");
    }
    line.made(fact_text(alloc, space, &reason.tuple));
    match &reason.how {
        How::Base => line.push_str(" is in the base"),
        How::Inserted => line.push_str(" was inserted"),
        How::Generated(mapping, _) => {
            line.push_str(" was made by ");
            line.push_str(space.mapping_name(*mapping));
        }
        How::Rewritten(from) => {
            line.push_str(" was ");
            line.made(fact_text(alloc, space, from));
        }
    }
    if let Some(number) = reason.number {
        let curator = space.curator_of(number);
        write!(line, " in {number} by {curator}");
        if reason.again {
            line.push_str(", as above");
        }
    }
}

fn reason_object(alloc: Global, space: &Space, reason: &Reason) -> Object {
    let mut object = Object::new(alloc);
    object.made("tuple", fact_text(alloc, space, &reason.tuple));
    object.number("depth", number_of(reason.depth));
    if let Some(number) = reason.number {
        object.number("number", i64::from(number));
        object.text("curator", space.curator_of(number));
    }
    object.text("how", reason.how.word());
    match &reason.how {
        How::Base | How::Inserted => (),
        How::Generated(mapping, image) => {
            object.text("mapping", space.mapping_name(*mapping));
            object.items("image", fact_items(alloc, space, image.as_slice()));
        }
        How::Rewritten(from) => {
            object.made("from", fact_text(alloc, space, from));
        }
    }
    object
}

fn fact_items(alloc: Global, space: &Space, tuples: &[Tuple]) -> Items {
    let mut items = Items::new(alloc);
    for tuple in tuples {
        items.made(fact_text(alloc, space, tuple));
    }
    items
}

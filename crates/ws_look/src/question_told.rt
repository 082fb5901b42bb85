//! The lines and the objects of `questions`.

use crate::questions::{Telling, Told};
use base_types::Memory;
use std::alloc::Global;
use ws_json::Object;
use ws_print::Lines;
use ws_question::{AskedNow, question_lines, question_object};
use ws_reply::object_of;
use ws_space::Space;

/// The lines for the updates and their questions.
pub(crate) fn lines(
    alloc: Global,
    space: &Space,
    told: &[Told],
    telling: Telling<'_>,
) -> Result<Vec<String>, Memory> {
    let mut lines = Lines::new(alloc);
    for one in told {
        if !lines.is_empty() {
            lines.push_str("");
        }
        add_lines(alloc, &mut lines, space, one, telling)?;
    }
    if lines.is_empty() {
        lines.push_str("no questions");
    }
    Ok(lines.done()?)
}

fn add_lines(
    alloc: Global,
    lines: &mut Lines,
    space: &Space,
    told: &Told,
    telling: Telling<'_>,
) -> Result<(), Memory> {
    lines.made(first_line(alloc, space, told.number));
    match &told.asked {
        Some(asked) => add_asked(alloc, lines, space, asked, telling),
        None => {
            let words = told.words.as_str();
            lines.made(format!(in alloc; "  {words}"));
            Ok(())
        }
    }
}

fn first_line(alloc: Global, space: &Space, number: u32) -> Result<String, Memory> {
    let curator = space.curator_of(number);
    let line = space.update_text(alloc, number)?;
    Ok(format!(in alloc; "{number} {curator}: {line}")?)
}

fn add_asked(
    alloc: Global,
    lines: &mut Lines,
    space: &Space,
    asked: &AskedNow,
    telling: Telling<'_>,
) -> Result<(), Memory> {
    for line in question_lines(alloc, space, asked, telling.like, telling.limit)?.iter() {
        lines.made(format!(in alloc; "  {line}"));
    }
    if asked.misfit {
        lines.push_str("  an answer that it had does not fit any more");
    }
    Ok(())
}

/// The updates with their questions, each as an object.
pub(crate) fn objects(
    alloc: Global,
    space: &Space,
    told: &[Told],
    telling: Telling<'_>,
) -> Result<Vec<Object>, Memory> {
    let mut objects = Vec::new(alloc);
    for one in told {
        objects.push(object(alloc, space, one, telling)?)?;
    }
    if objects.is_empty() {
        objects.push(nothing(alloc, space))?;
    }
    Ok(objects)
}

fn nothing(alloc: Global, space: &Space) -> Object {
    let mut object = object_of(alloc, "question");
    object.text("kind", "nothing");
    object.number("at", i64::from(space.at()));
    object
}

fn object(
    alloc: Global,
    space: &Space,
    told: &Told,
    telling: Telling<'_>,
) -> Result<Object, Memory> {
    let mut object = match &told.asked {
        Some(asked) => question_object(alloc, space, asked, telling.like, telling.limit)?,
        None => unasked(alloc, told),
    };
    add_update(alloc, &mut object, space, told);
    Ok(object)
}

fn add_update(alloc: Global, object: &mut Object, space: &Space, told: &Told) {
    object.text("reply", "question");
    object.number("number", i64::from(told.number));
    object.text("curator", space.curator_of(told.number));
    object.made("line", space.update_text(alloc, told.number));
    object.number("at", i64::from(space.at()));
    object.text("time", space.time_of(told.number));
}

fn unasked(alloc: Global, told: &Told) -> Object {
    let mut object = Object::new(alloc);
    object.text("kind", told.kind);
    object.text("words", told.words.as_str());
    object
}

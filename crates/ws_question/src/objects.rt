//! The object of a question.

use crate::asked::AskedNow;
use crate::candidates::{Candidate, candidates_of};
use crate::texts::{fact_text, write_text};
use base_types::{Memory, Tuple, Write};
use std::alloc::Global;
use ws_json::{Items, Object};
use ws_space::Space;

/// The object of the question, with at most `limit` of the candidates that have the text `like` in them.
pub fn question_object(
    alloc: Global,
    space: &Space,
    asked: &AskedNow,
    like: Option<&str>,
    limit: usize,
) -> Result<Object, Memory> {
    let found = candidates_of(alloc, space, asked, like, limit)?;
    let question = &asked.question;
    let kind = if question.is_positive {
        "positive"
    } else {
        "negative"
    };
    let mut object = Object::new(alloc);
    object.number("number", i64::from(asked.number));
    object.text("kind", kind);
    if let Some(rule) = asked.rule(space) {
        object.text("mapping", rule.name.as_str());
    }
    object.made("rule", space.rule_text(alloc, asked.mapping));
    object.items("candidates", candidate_items(alloc, found.shown.as_slice()));
    if like.is_some() {
        object.number("fit", as_number(found.fit));
    }
    object.number("count", as_number(asked.count()));
    object.items("since", facts(alloc, space, question.since.as_slice()));
    object.items(
        "so_far",
        write_items(alloc, space, question.so_far.as_slice()),
    );
    if let Some(wanted) = asked.wanted() {
        object.made("wanted", fact_text(alloc, space, wanted));
    }
    Ok(object)
}

fn as_number(count: usize) -> i64 {
    i64::try_from(count).unwrap_or(i64::MAX)
}

fn candidate_items(alloc: Global, candidates: &[Candidate]) -> Items {
    let mut items = Items::new(alloc);
    for candidate in candidates {
        let mut object = Object::new(alloc);
        object.number("number", as_number(candidate.number));
        object.text("tuple", candidate.text.as_str());
        items.object(object);
    }
    items
}

fn facts(alloc: Global, space: &Space, tuples: &[Tuple]) -> Items {
    let mut items = Items::new(alloc);
    for tuple in tuples {
        items.made(fact_text(alloc, space, tuple));
    }
    items
}

/// The tuples that came, each after a `+`, and those that went, each after a `-`.
pub fn write_items(alloc: Global, space: &Space, writes: &[Write]) -> Items {
    let mut items = Items::new(alloc);
    for write in writes {
        items.made(write_text(alloc, space, write, "+", "-"));
    }
    items
}

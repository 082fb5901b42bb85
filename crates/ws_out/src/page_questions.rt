//! The questions of a page, each with a command for each of its candidates.

use crate::pages::Document;
use base_types::{List, Memory, Tuple};
use ws_print::Text;
use ws_question::{fact_text, reason_words};
use ws_run::{Question, Reason};
use ws_space::Space;

const HEADER: &str =
    "<table><tr><th scope=\"col\">Candidate</th><th scope=\"col\">Command</th></tr>";

/// Adds each update that waits, and its question.
pub(crate) fn add_questions(document: &mut Document, space: &mut Space) -> Result<(), Memory> {
    document.say("<h2 id=\"questions\">Questions</h2>");
    let numbers = space.waiting_numbers(document.alloc)?;
    for number in numbers.iter() {
        add_heading(document, space, *number)?;
        add_stop(document, space, *number)?;
    }
    if numbers.is_empty() {
        document.say("<p>No questions.</p>");
    }
    Ok(())
}

// Adds what an update asks, or why it waits.
fn add_stop(document: &mut Document, space: &mut Space, number: u32) -> Result<(), Memory> {
    let reason = space.question(document.alloc, number)?;
    match &reason {
        Some(Reason::Asks(question)) => add_question(document, space, number, question),
        _ => add_reason(document, space, &reason),
    }
}

fn add_heading(document: &mut Document, space: &Space, number: u32) -> Result<(), Memory> {
    let alloc = document.alloc;
    let curator = document.shown(space.curator_of(number))?;
    let update = document.code(space.update_text(alloc, number)?.as_str())?;
    document.made(format!(in alloc; "<h3>{number} {curator}: {update}</h3>"));
    Ok(())
}

fn add_reason(
    document: &mut Document,
    space: &Space,
    reason: &Option<Reason>,
) -> Result<(), Memory> {
    let alloc = document.alloc;
    let words = reason_words(alloc, space, reason.as_ref())?;
    let shown = document.shown(words.as_str())?;
    document.made(format!(in alloc; "<p>{shown}</p>"));
    Ok(())
}

fn add_question(
    document: &mut Document,
    space: &Space,
    number: u32,
    question: &Question,
) -> Result<(), Memory> {
    add_asked(document, space, question)?;
    document.say(HEADER);
    for (place, candidate) in question.candidates.as_slice().iter().enumerate() {
        add_candidate(document, space, number, place, candidate)?;
    }
    if question.is_positive {
        add_command(document, "none of them", number, "new", space.at());
    }
    document.say("</table>");
    Ok(())
}

// Adds what is asked, and the image that made the update ask.
fn add_asked(document: &mut Document, space: &Space, question: &Question) -> Result<(), Memory> {
    let mapping = space.source_mapping(question.asked.source);
    let rule = space.rule_text(document.alloc, mapping.unwrap_or(u16::MAX))?;
    let rule = document.code(rule.as_str())?;
    if question.is_positive {
        return add_wanted(document, space, question, rule.as_str());
    }
    let alloc = document.alloc;
    let words = "no longer holds for these. Which of them go?";
    document.made(format!(in alloc; "<p>{rule} {words}</p>"));
    Ok(())
}

fn add_wanted(
    document: &mut Document,
    space: &Space,
    question: &Question,
    rule: &str,
) -> Result<(), Memory> {
    let alloc = document.alloc;
    let wanted = codes(document, space, &question.asked.tuples)?;
    document.made(format!(in alloc; "<p>{rule} wants {wanted}. Is it one of these?</p>"));
    let since = codes(document, space, &question.since)?;
    document.made(format!(in alloc; "<p>Since {since}.</p>"));
    Ok(())
}

// The tuples as code, with commas between them.
fn codes(document: &Document, space: &Space, tuples: &List<Tuple>) -> Result<String, Memory> {
    let mut out = Text::new(document.alloc);
    for (place, tuple) in tuples.as_slice().iter().enumerate() {
        let text = fact_text(document.alloc, space, tuple)?;
        out.push_str(if 0 < place { ", " } else { "" });
        out.made(document.code(text.as_str()));
    }
    Ok(out.done()?)
}

fn add_candidate(
    document: &mut Document,
    space: &Space,
    number: u32,
    place: usize,
    candidate: &Tuple,
) -> Result<(), Memory> {
    let alloc = document.alloc;
    let text = fact_text(alloc, space, candidate)?;
    let code = document.code(text.as_str())?;
    let chosen = place.saturating_add(1);
    let word = format!(in alloc; "{chosen}")?;
    add_command(document, code.as_str(), number, word.as_str(), space.at());
    Ok(())
}

// Adds a row with the command for this answer.
fn add_command(document: &mut Document, shown: &str, number: u32, word: &str, at: u32) {
    let mut line = Text::new(document.alloc);
    write!(line, "<tr><td>{shown}</td><td>");
    write!(
        line,
        "<code>answer {number} {word} --at {at}</code></td></tr>"
    );
    document.made(line.done());
}

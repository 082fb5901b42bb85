//! `page`: the workspace as one file of HTML, without scripts and without other files.

use crate::page_log::add_log;
use crate::page_mappings::add_mappings;
use crate::page_questions::add_questions;
use crate::page_tables::add_tables;
use crate::page_unknowns::{Unknowns, add_unknowns, unknowns_of};
use crate::style::STYLE;
use base_types::Memory;
use std::alloc::{AllocError, Global};
use ws_draw::add_html;
use ws_fault::Refusal;
use ws_print::{Lines, Text};
use ws_reply::Context;
use ws_space::Space;

const META: &str = "<html lang=\"en\"><head><meta charset=\"utf-8\"><meta name=\"viewport\" \
                    content=\"width=device-width\">";

const NAVIGATION: &str =
    "<nav><a href=\"#questions\">Questions</a> · <a href=\"#tables\">Tables</a> · \
                          <a href=\"#unknowns\">Unknowns</a> · <a href=\"#mappings\">Mappings</a> · \
                          <a href=\"#log\">Log</a></nav>";

/// The lines of a page that is being written.
#[derive(Drop)]
pub(crate) struct Document {
    pub alloc: Global,
    lines: Lines,
}

impl Document {
    /// Adds a line.
    pub fn say(&mut self, line: &str) {
        self.lines.push_str(line);
    }

    /// Adds a line if there was memory to make it.
    pub fn made<E: Drop>(&mut self, line: Result<String, E>) {
        self.lines.made(line);
    }

    /// The text, escaped for HTML.
    pub fn shown(&self, text: &str) -> Result<String, AllocError> {
        let mut out = Text::new(self.alloc);
        add_html(&mut out, text);
        out.done()
    }

    /// The text as code, escaped for HTML.
    pub fn code(&self, text: &str) -> Result<String, AllocError> {
        let mut out = Text::from_str(self.alloc, "<code>");
        add_html(&mut out, text);
        out.push_str("</code>");
        out.done()
    }
}

// The last part of a file's path.
fn name_of(file: &str) -> &str {
    match file.rsplit_once('/') {
        Some((_, name)) => name,
        None => file,
    }
}

/// The lines of the page.
pub fn page(
    alloc: Global,
    space: &mut Space,
    context: &Context<'_>,
) -> Result<Vec<String>, Refusal> {
    let mut document = Document {
        alloc,
        lines: Lines::new(alloc),
    };
    add_all(&mut document, space, context)?;
    Ok(document.lines.done()?)
}

fn add_all(
    document: &mut Document,
    space: &mut Space,
    context: &Context<'_>,
) -> Result<(), Memory> {
    let unknowns = unknowns_of(document.alloc, space)?;
    add_parts(document, space, context, &unknowns)
}

fn add_parts(
    document: &mut Document,
    space: &mut Space,
    context: &Context<'_>,
    unknowns: &Unknowns,
) -> Result<(), Memory> {
    add_top(document, space, context, unknowns.len())?;
    add_questions(document, space)?;
    add_tables(document, space)?;
    add_unknowns(document, unknowns);
    add_mappings(document, space)?;
    add_log(document, space)
}

// Adds the top of the page, before its parts.
fn add_top(
    document: &mut Document,
    space: &Space,
    context: &Context<'_>,
    unknowns: usize,
) -> Result<(), AllocError> {
    let name = document.shown(name_of(context.file))?;
    add_head(document, name.as_str());
    add_counts(document, space, name.as_str(), unknowns);
    document.say(NAVIGATION);
    Ok(())
}

// Adds the head of the document, with the style sheet.
fn add_head(document: &mut Document, name: &str) {
    document.say("<!doctype html>");
    document.say(META);
    let mut line = Text::new(document.alloc);
    write!(line, "<title>{name}</title><style>");
    for (place, style) in STYLE.iter().enumerate() {
        if 0 < place {
            document.made(line.done());
            line = Text::new(document.alloc);
        }
        line.push_str(style);
    }
    line.push_str("</style></head><body>");
    document.made(line.done());
}

fn add_counts(document: &mut Document, space: &Space, name: &str, unknowns: usize) {
    let at = space.at();
    let last = space.state.last();
    let tuples = space.state.facts().len();
    let waiting = space.state.waiting().len();
    let mut line = Text::new(document.alloc);
    write!(
        line,
        "<h1>{name}</h1><p>At record {at}; last update {last}. "
    );
    write!(
        line,
        "Tuples: {tuples}. Unknowns: {unknowns}. Waiting: {waiting}.</p>"
    );
    document.made(line.done());
}

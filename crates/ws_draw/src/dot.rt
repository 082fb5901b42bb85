//! The mappings as a graph in DOT: a box for each relation, an ellipse for each mapping.

use crate::links::Link;
use std::alloc::{AllocError, Global};
use std::fmt::Write;
use ws_print::{Lines, Text, add_form};
use ws_written::Relation;

const HEAD: [&str; 3] = ["digraph mappings {", "  rankdir=LR;", "  node [shape=box];"];

/// Adds a text between quotes, as DOT writes it.
pub fn add_dot_text(out: &mut Text, text: &str) {
    out.push('"');
    for letter in text.chars() {
        if letter == '"' || letter == '\\' {
            out.push('\\');
        }
        out.push(letter);
    }
    out.push('"')
}

fn relation_line(alloc: Global, number: usize, relation: &Relation) -> Result<String, AllocError> {
    let mut form = Text::new(alloc);
    add_form(&mut form, relation);
    let form = form.done()?;
    let mut line = Text::new(alloc);
    write!(line, "  r{number} [label=");
    add_dot_text(&mut line, form.as_str());
    line.push_str("];");
    line.done()
}

fn link_line(alloc: Global, number: usize, link: &Link<'_>) -> Result<String, AllocError> {
    let mut line = Text::new(alloc);
    write!(line, "  m{number} [label=");
    add_dot_text(&mut line, link.name);
    line.push_str(", shape=ellipse");
    line.push_str(if link.is_open {
        ", style=dashed];"
    } else {
        "];"
    });
    line.done()
}

// Adds the lines of a mapping: its ellipse and its edges.
fn add_link(alloc: Global, lines: &mut Lines, number: usize, link: &Link<'_>) {
    lines.made(link_line(alloc, number, link));
    for relation in link.left.iter() {
        lines.made(format!(in alloc; "  r{relation} -> m{number};"));
    }
    for relation in link.right.iter() {
        lines.made(format!(in alloc; "  m{number} -> r{relation};"));
    }
}

/// The lines of the graph in DOT.
pub fn graph_lines(
    alloc: Global,
    relations: &[Relation],
    links: &[Link<'_>],
) -> Result<Vec<String>, AllocError> {
    let mut lines = Lines::new(alloc);
    for line in HEAD {
        lines.push_str(line);
    }
    for (number, relation) in relations.iter().enumerate() {
        lines.made(relation_line(alloc, number, relation));
    }
    for (number, link) in links.iter().enumerate() {
        add_link(alloc, &mut lines, number, link);
    }
    lines.push_str("}");
    lines.done()
}

//! The reasons for a tuple as a graph for `dot`.

use crate::reasons::{How, Reason};
use base_types::{Memory, Tuple};
use std::alloc::Global;
use ws_print::{Lines, Text};
use ws_question::fact_text;
use ws_space::Space;

// A tuple by names, the update that put it, and how it came to be there.
#[derive(Drop)]
struct Node {
    tuple: Tuple,
    number: Option<u32>,
    how: &'static str,
}

// The lines, the nodes by number, and the edges so far.
#[derive(Drop)]
struct Graph {
    lines: Lines,
    nodes: Vec<Node>,
    edges: Vec<(usize, usize)>,
    // The numbers of the nodes that the next one may be a reason for.
    path: Vec<usize>,
}

/// The lines of the graph.
pub(crate) fn dot_lines(
    alloc: Global,
    space: &Space,
    reasons: &[Reason],
) -> Result<Vec<String>, Memory> {
    let mut graph = Graph {
        lines: Lines::new(alloc),
        nodes: Vec::new(alloc),
        edges: Vec::new(alloc),
        path: Vec::new(alloc),
    };
    graph.lines.push_str("digraph why {");
    graph.lines.push_str("  rankdir=BT;");
    graph.lines.push_str("  node [shape=box];");
    graph.add_all(alloc, space, reasons)?;
    graph.lines.push_str("}");
    Ok(graph.lines.done()?)
}

impl Graph {
    fn add_all(&mut self, alloc: Global, space: &Space, reasons: &[Reason]) -> Result<(), Memory> {
        for reason in reasons {
            self.add(alloc, space, reason)?;
        }
        Ok(())
    }

    fn add(&mut self, alloc: Global, space: &Space, reason: &Reason) -> Result<(), Memory> {
        let number = self.number_of(alloc, space, reason)?;
        self.path.truncate(reason.depth);
        if let Some(last) = self.path.last() {
            let edge = (number, *last);
            if !self.edges.contains(&edge) {
                self.edges.push(edge)?;
                let (from, to) = edge;
                self.lines.made(format!(in alloc; "  t{from} -> t{to};"));
            }
        }
        self.path.push(number)?;
        Ok(())
    }

    // The number of the reason's node. A new node gets its line.
    fn number_of(
        &mut self,
        alloc: Global,
        space: &Space,
        reason: &Reason,
    ) -> Result<usize, Memory> {
        for (number, node) in self.nodes.iter().enumerate() {
            if node.is_of(reason) {
                return Ok(number);
            }
        }
        let number = self.nodes.len();
        let label = label_of(alloc, space, reason)?;
        self.lines
            .made(format!(in alloc; "  t{number} [label=\"{label}\"];"));
        self.nodes.push(Node {
            tuple: reason.tuple.share()?,
            number: reason.number,
            how: reason.how.word(),
        })?;
        Ok(number)
    }
}

impl Node {
    // Whether the reason belongs to this node.
    fn is_of(&self, reason: &Reason) -> bool {
        self.tuple == reason.tuple && self.number == reason.number && self.how == reason.how.word()
    }
}

// The tuple, and in a second line how it came to be there and who put it.
fn label_of(alloc: Global, space: &Space, reason: &Reason) -> Result<String, Memory> {
    let mut label = Text::new(alloc);
    add_label(alloc, &mut label, space, reason)?;
    Ok(label.done()?)
}

fn add_label(
    alloc: Global,
    label: &mut Text,
    space: &Space,
    reason: &Reason,
) -> Result<(), Memory> {
    for letter in fact_text(alloc, space, &reason.tuple)?.as_str().chars() {
        if letter == '"' || letter == '\\' {
            label.push('\\');
        }
        label.push(letter);
    }
    label.push_str("\\n");
    label.push_str(match &reason.how {
        How::Base => "base",
        How::Inserted => "inserted",
        How::Generated(mapping, _) => space.mapping_name(*mapping),
        How::Rewritten(_) => "filled in",
    });
    if let Some(number) = reason.number {
        let curator = space.curator_of(number);
        write!(label, " {number} {curator}");
    }
    Ok(())
}

//! The mappings as SVG: boxes for relations, rounded boxes for mappings, and arrows. A mapping that is only proposed is dashed.

use crate::html::add_html;
use crate::layout::{HIGH, Layout, Node, layout_of};
use crate::links::Link;
use std::alloc::{AllocError, Global};
use std::fmt::Write;
use ws_print::Text;
use ws_written::Relation;

const LABEL: &str = "<svg role=\"img\" aria-label=\"The mappings between the tables\"";

const MARKER: &str =
    "<defs><marker id=\"a\" viewBox=\"0 0 8 8\" refX=\"8\" refY=\"4\" markerWidth=\"7\" \
     markerHeight=\"7\" orient=\"auto\"><path d=\"M0 0L8 4L0 8z\" class=\"tip\"/></marker></defs>";

/// The picture as one `svg` element. The page gives its classes their colours.
pub fn svg_of(
    alloc: Global,
    relations: &[Relation],
    links: &[Link<'_>],
) -> Result<String, AllocError> {
    let layout = layout_of(alloc, relations, links)?;
    let mut out = Text::new(alloc);
    add_head(&mut out, &layout);
    for (number, link) in links.iter().enumerate() {
        add_edges(&mut out, &layout, number, link);
    }
    for node in layout.nodes.iter() {
        add_box(&mut out, node);
    }
    out.push_str("</svg>");
    out.done()
}

fn add_head(out: &mut Text, layout: &Layout<'_>) {
    let width = layout.width;
    let height = layout.height.saturating_add(HIGH);
    out.push_str(LABEL);
    write!(
        out,
        " width=\"{width}\" height=\"{height}\" viewBox=\"0 0 {width} {height}\">"
    );
    out.push_str(MARKER)
}

fn add_edges(out: &mut Text, layout: &Layout<'_>, number: usize, link: &Link<'_>) {
    let Some(node) = layout.node(true, number) else {
        return;
    };
    for relation in link.left.iter() {
        if let Some(from) = layout.node(false, *relation as usize) {
            add_edge(out, layout.height, from, node, link.is_open);
        }
    }
    for relation in link.right.iter() {
        if let Some(to) = layout.node(false, *relation as usize) {
            add_edge(out, layout.height, node, to, link.is_open);
        }
    }
}

fn add_edge(out: &mut Text, height: usize, from: &Node<'_>, to: &Node<'_>, is_open: bool) {
    out.push_str("<path d=\"");
    if from.x < to.x {
        add_way_on(out, from, to);
    } else {
        add_way_back(out, height, from, to);
    }
    let class = if is_open { "edge open" } else { "edge" };
    write!(out, "\" class=\"{class}\" marker-end=\"url(#a)\"/>")
}

// Adds the path from the right side of a box to the left side of a box in a later column.
fn add_way_on(out: &mut Text, from: &Node<'_>, to: &Node<'_>) {
    let x = from.x.saturating_add(from.width);
    let y = from.y.saturating_add(HIGH / 2);
    let out_x = x.saturating_add(30);
    let in_x = to.x.saturating_sub(30);
    let to_x = to.x;
    let to_y = to.y.saturating_add(HIGH / 2);
    write!(out, "M{x} {y}C{out_x} {y} {in_x} {to_y} {to_x} {to_y}")
}

// Adds the path from the foot of a box to the foot of a box in the same or an earlier column, below all boxes.
fn add_way_back(out: &mut Text, height: usize, from: &Node<'_>, to: &Node<'_>) {
    let low = height.saturating_add(25);
    let x = from.x.saturating_add(from.width / 2);
    let y = from.y.saturating_add(HIGH);
    let to_x = to.x.saturating_add(to.width / 2);
    let to_y = to.y.saturating_add(HIGH);
    write!(out, "M{x} {y}C{x} {low} {to_x} {low} {to_x} {to_y}")
}

fn class_of(node: &Node<'_>) -> &'static str {
    if !node.is_link {
        return "rel";
    }
    if node.is_open { "map open" } else { "map" }
}

fn add_box(out: &mut Text, node: &Node<'_>) {
    let x = node.x;
    let y = node.y;
    let width = node.width;
    let round = if node.is_link { 15 } else { 2 };
    let class = class_of(node);
    write!(
        out,
        "<rect x=\"{x}\" y=\"{y}\" width=\"{width}\" height=\"30\" rx=\"{round}\" class=\"{class}\"/>"
    );
    let text_x = x.saturating_add(8);
    let text_y = y.saturating_add(20);
    write!(out, "<text x=\"{text_x}\" y=\"{text_y}\">");
    add_html(out, node.name);
    out.push_str("</text>")
}
